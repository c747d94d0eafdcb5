//! Choices among a few, as whether a period goes by weeks or by months: each has a name and a number of its own.

ghost use Rattle.std.specs.Prelude.{◌≡◌, ℕ, List, Some, IfSome};
ghost use Rattle.mf_base.specs.Choices.{choice_named, choice_numbered};

/// A choice among a few. No two have the same name or the same number.
pub trait Choice: Copy + 'static {
    ghost choices: { List Self };

    ghost name_of: { Self → List ℕ };

    ghost number_of: { Self → ℕ };

    /// The choices, in the order of their numbers.
    fn all() -> &'static [Self]
        ensures { result.now ≡ choices };

    /// Its name, in requests, replies and options.
    fn name(self) -> &'static str
        ensures { result.now ≡ name_of self };

    /// The number by which the tables keep it.
    fn number(self) -> u32
        ensures { result ≡ number_of self };

    ghost told_apart: { (choice : Self) → (choice_named name_of choices (name_of choice) ≡ Some choice)
        × (choice_numbered number_of choices (number_of choice) ≡ Some choice) };

    /// The one of this name.
    final fn from_name(text: &str) -> Option<Self>
        ensures value { result ≡ choice_named name_of choices text.now }
        ensures some { IfSome result (λ choice. text.now ≡ name_of choice) }
        ensures every { (choice : Self) → text.now ≡ name_of choice → result ≡ Some choice }
    {
        find_named(text)
    }

    /// The one of this number.
    final fn from_number(number: u32) -> Option<Self>
        ensures value { result ≡ choice_numbered number_of choices number }
        ensures some { IfSome result (λ choice. number ≡ number_of choice) }
        ensures every { (choice : Self) → number ≡ number_of choice → result ≡ Some choice }
    {
        find_numbered(number)
    }
}

fn find_named<C: Choice>(text: &str) -> Option<C>
    ensures value { result ≡ choice_named C.name_of C.choices text.now }
    ensures some { IfSome result (λ choice. text.now ≡ C.name_of choice) }
{
    C::all()
        .iter()
        .copied()
        .find(|choice| choice.name() == text)
}

fn find_numbered<C: Choice>(number: u32) -> Option<C>
    ensures value { result ≡ choice_numbered C.number_of C.choices number }
    ensures some { IfSome result (λ choice. number ≡ C.number_of choice) }
{
    C::all()
        .iter()
        .copied()
        .find(|choice| choice.number() == number)
}
