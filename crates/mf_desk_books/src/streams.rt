//! Streams and a message whose every reply is known.

/// A client is entered and read; lines that are refused.
pub const FIRST: &str = "1/1 POST /clients {\"office\":1,\"name\":\"Amina\"}\n\
1/1 GET /clients/0001-000001\n\
1/1 GET /clients/0001-000002\n\
1/1 GET /clients/1-1\n\
1/1 POST /clients {\"office\":2,\"name\":\"B\"}\n\
1/1 PUT /clients\n\
01/1 GET /clients/0001-000001\n\
2/1 GET /clients/0001-000001\n";

/// The replies to `FIRST`.
pub const FIRST_REPLIES: &str = "201 {\"client\":\"0001-000001\"}\n\
200 {\"client\":\"0001-000001\",\"name\":\"Amina\"}\n\
404 {\"fault\":\"F4\"}\n\
400 {\"fault\":\"F1\"}\n\
404 {\"fault\":\"F4\"}\n\
405 {\"fault\":\"F6\"}\n\
400 {\"fault\":\"F1\"}\n\
401 {\"fault\":\"F2\"}\n";

/// Branches, and what one of them sees.
pub const BRANCHES: &str = "1/1 POST /offices {\"number\":2,\"parent\":1,\"name\":\"North\"}\n\
1/1 POST /offices {\"number\":20,\"parent\":1,\"name\":\"South\"}\n\
1/1 POST /offices {\"number\":5,\"parent\":2,\"name\":\"Mill\"}\n\
1/1 POST /staff {\"office\":2,\"name\":\"Ben\",\"role\":\"officer\"}\n\
2/1 GET /offices\n\
2/1 POST /clients {\"office\":5,\"name\":\"C\"}\n\
2/1 POST /clients {\"office\":20,\"name\":\"C\"}\n\
2/1 POST /clients {\"office\":77,\"name\":\"C\"}\n\
2/1 POST /staff {\"office\":20,\"name\":\"D\",\"role\":\"teller\"}\n\
1/1 POST /offices {\"number\":5,\"parent\":1,\"name\":\"X\"}\n";

/// The replies to `BRANCHES`.
pub const BRANCHES_REPLIES: &str = "201 {\"office\":2}\n\
201 {\"office\":20}\n\
201 {\"office\":5}\n\
201 {\"staff\":\"2/1\"}\n\
200 {\"offices\":[{\"name\":\"North\",\"number\":2,\"parent\":1},{\"name\":\"Mill\",\"number\":5,\"parent\":2}]}\n\
201 {\"client\":\"0005-000001\"}\n\
404 {\"fault\":\"F4\"}\n\
404 {\"fault\":\"F4\"}\n\
403 {\"fault\":\"F3\"}\n\
409 {\"fault\":\"F16\"}\n";

/// A client has a loan of 100000 cents at 12 percent for three months, paid out on 2024-01-31. The business day becomes
/// 2024-03-31.
pub const LENT: &str =
    "1/1 POST /products {\"name\":\"P\",\"method\":\"declining-equal-principal\",\"rate\":1200,\
\"frequency\":\"months\",\"every\":1,\"principal_grace\":0,\"interest_grace\":0,\"min_principal\":1,\
\"max_principal\":1000000,\"min_periods\":1,\"max_periods\":12,\"strategy\":\"mifos-standard-strategy\"}\n\
1/1 POST /clients {\"office\":1,\"name\":\"Amina\"}\n\
1/1 POST /loans {\"client\":\"0001-000001\",\"product\":1,\"principal\":100000,\"periods\":3}\n\
1/1 POST /loans/0001-000001/approve\n\
1/1 POST /loans/0001-000001/disburse {\"day\":\"2024-01-31\"}\n\
1/1 PUT /business-day {\"day\":\"2024-03-31\"}\n";

/// A collection sheet: two repayments of that loan, and one of a loan that isn't there.
pub const SHEET: &str = "receipt,loan,date,amount\n\
R-1,0001-000001,2024-02-29,200\n\
R-2,0001-000001,2024-03-31,500.00\n\
R-3,0001-000009,2024-03-31,1.5\n";

/// The results of `SHEET`.
pub const ENTERED: &str = "receipt,loan,date,amount,result\n\
R-1,0001-000001,2024-02-29,200,entered\n\
R-2,0001-000001,2024-03-31,500.00,entered\n\
R-3,0001-000009,2024-03-31,1.5,F4\n";

/// A message that adds a client.
pub const CLIENT: &str =
    "POST /clients HTTP/1.1\r\nHost: localhost\r\nX-Staff: 1/1\r\nContent-Length: 27\r\n\r\n\
     {\"office\":1,\"name\":\"Amina\"}";

/// The response to it, where the client is the first of the head office.
pub const CREATED: &str =
    "HTTP/1.1 201 Created\r\nContent-Type: application/json\r\nContent-Length: 24\r\nConnection: close\r\n\r\n\
     {\"client\":\"0001-000001\"}";
