//! The number and the word of each refusal.
ghost use Rattle.std.specs.Prelude.{◌≡◌};

use crate::Refusal;

impl Refusal {
    ghost use Rattle.newt_base.specs.Refusals.{refusal_number, refusal_word};

    /// The number in the reply line.
    pub fn number(self) -> u32
        ensures { result ≡ refusal_number self }
    {
        match self {
            Refusal::Longline => 12,
            Refusal::Command => 10,
            Refusal::Line => 11,
            Refusal::Malformed => 1,
            Refusal::Compressed => 2,
            Refusal::Literal => 3,
            Refusal::Backup => 51,
            Refusal::Unit => 20,
            Refusal::Blocks => 27,
            Refusal::Mounted => 21,
            Refusal::Notmounted => 25,
            Refusal::Nostore => 22,
            Refusal::Store => 26,
            Refusal::Stores => 23,
            Refusal::Signature => 24,
            Refusal::Cursor => 42,
            Refusal::Watch => 47,
            Refusal::Copy => 46,
            Refusal::Soup => 30,
            Refusal::Exists => 31,
            Refusal::Entry => 32,
            Refusal::Changed => 45,
            Refusal::Notframe => 37,
            Refusal::Info => 44,
            Refusal::Path => 38,
            Refusal::Range => 39,
            Refusal::Spec => 41,
            Refusal::Index => 40,
            Refusal::Key => 43,
            Refusal::Limit => 36,
            Refusal::Size => 34,
            Refusal::Ids => 35,
            Refusal::Full => 33,
        }
    }

    /// The word in the reply line.
    pub fn word(self) -> &'static str
        ensures { result.now ≡ refusal_word self }
    {
        match self {
            Refusal::Longline => "longline",
            Refusal::Command => "command",
            Refusal::Line => "line",
            Refusal::Malformed => "malformed",
            Refusal::Compressed => "compressed",
            Refusal::Literal => "literal",
            Refusal::Backup => "backup",
            Refusal::Unit => "unit",
            Refusal::Blocks => "blocks",
            Refusal::Mounted => "mounted",
            Refusal::Notmounted => "notmounted",
            Refusal::Nostore => "nostore",
            Refusal::Store => "store",
            Refusal::Stores => "stores",
            Refusal::Signature => "signature",
            Refusal::Cursor => "cursor",
            Refusal::Watch => "watch",
            Refusal::Copy => "copy",
            Refusal::Soup => "soup",
            Refusal::Exists => "exists",
            Refusal::Entry => "entry",
            Refusal::Changed => "changed",
            Refusal::Notframe => "notframe",
            Refusal::Info => "info",
            Refusal::Path => "path",
            Refusal::Range => "range",
            Refusal::Spec => "spec",
            Refusal::Index => "index",
            Refusal::Key => "key",
            Refusal::Limit => "limit",
            Refusal::Size => "size",
            Refusal::Ids => "ids",
            Refusal::Full => "full",
        }
    }
}
