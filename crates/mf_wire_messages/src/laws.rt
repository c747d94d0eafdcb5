//! Laws of messages, and messages worked out by hand. The functions do nothing: their contracts are the laws.

ghost use Rattle.std.specs.Prelude.{◌≡◌, ℕ, Bool, List, Option};
ghost use Rattle.mf_wire_messages.specs.Messages.{Message, IsMessage};
ghost use Rattle.mf_wire_messages.specs.Worked.{HeadIsWritten, IsAskedByMessage, CutIsRefused, FieldsAreRefused};
ghost use Rattle.mf_wire_messages.specs.Worked.{FieldsAreTaken, FieldsAreTold};
ghost use Rattle.mf_wire_messages.specs.Worked.{PhrasesAreWritten, ResponsesAreWritten};

/// A message that asks for a new client, its response, the heads that are refused, what heads tell, and the phrases of
/// responses.
pub fn worked_messages()
    ensures head { HeadIsWritten }
    ensures asked { IsAskedByMessage }
    ensures cut { CutIsRefused }
    ensures refused { FieldsAreRefused }
    ensures taken { FieldsAreTaken }
    ensures told { FieldsAreTold }
    ensures phrases { PhrasesAreWritten }
    ensures responses { ResponsesAreWritten }
{}

/// The bytes of a stream are no two messages.
pub fn one_message()
    ensures { (bytes : List ℕ) (message other : Option Message) (to_head other_to_head : Bool) →
        IsMessage bytes message to_head → IsMessage bytes other other_to_head → (message ≡ other)
        × (to_head ≡ other_to_head) }
{}
