//! The first words of commands, in one table.
ghost use Rattle.std.specs.Prelude.{◌≡◌, bytes_eq};
ghost use Rattle.std.specs.List.{find};
ghost use Rattle.newt_script.specs.Verbs.{word_of, unit_word, soup_word, entry_word, transfer_word};
ghost use Rattle.newt_script.specs.Verbs.{cursor_word, watch_word, copy_word};
ghost use Rattle.newt_script.specs.Verbs.{unit_command, soup_command, entry_command};
ghost use Rattle.newt_script.specs.Verbs.{transfer_command, cursor_command};
ghost use Rattle.newt_script.specs.Verbs.{watch_command, copy_command};

use newt_base::{Name, Uid};
use newt_host::Unit;
use newt_spec_world::Command;

/// A verb: the first word of a command. Verbs that are followed by the same words stand together.
#[derive(Clone, Copy)]
pub(crate) enum Verb {
    Quit,
    Stores,
    Time,
    Nsof,
    Lit,
    Resolve,
    Format,
    Add,
    Addx,
    Addu,
    Set,
    Change,
    Vread,
    Vwrite,
    Index,
    Unindex,
    Tags,
    Info,
    Query,
    Moveby,
    Goto,
    Gotokey,
    Watch,
    Edit,
    Unit(UnitVerb),
    Soup(SoupVerb),
    Entry(EntryVerb),
    Transfer(TransferVerb),
    Cursor(CursorVerb),
    OfWatch(WatchVerb),
    OfCopy(CopyVerb),
}

/// The verbs that are followed by `U`.
#[derive(Clone, Copy)]
pub(crate) enum UnitVerb {
    Mount,
    Unmount,
    Default,
    Soups,
}

/// The verbs that are followed by `U S`.
#[derive(Clone, Copy)]
pub(crate) enum SoupVerb {
    Soup,
    Drop,
    Indexes,
}

/// The verbs that are followed by `U S UID`.
#[derive(Clone, Copy)]
pub(crate) enum EntryVerb {
    Get,
    Getx,
    Remove,
    Alias,
    Open,
}

/// The verbs that are followed by `U S UID U S`.
#[derive(Clone, Copy)]
pub(crate) enum TransferVerb {
    Copy,
    Move,
}

/// The verbs that are followed by `C`.
#[derive(Clone, Copy)]
pub(crate) enum CursorVerb {
    Entry,
    Next,
    Prev,
    Reset,
    End,
    Count,
    Which,
    Clone,
    Close,
}

/// The verbs that are followed by the number of a watch.
#[derive(Clone, Copy)]
pub(crate) enum WatchVerb {
    Notes,
    Unwatch,
}

/// The verbs that are followed by the number of a working copy.
#[derive(Clone, Copy)]
pub(crate) enum CopyVerb {
    Draft,
    Save,
    Revert,
    Discard,
}

/// All verbs. A search looks at them one after another, so those that scripts repeat stand first.
const VERBS: [Verb; 53] = [
    Verb::Cursor(CursorVerb::Next),
    Verb::Entry(EntryVerb::Get),
    Verb::Add,
    Verb::Set,
    Verb::Change,
    Verb::Entry(EntryVerb::Remove),
    Verb::Cursor(CursorVerb::Prev),
    Verb::Cursor(CursorVerb::Entry),
    Verb::Nsof,
    Verb::Lit,
    Verb::Time,
    Verb::Quit,
    Verb::Format,
    Verb::Unit(UnitVerb::Mount),
    Verb::Unit(UnitVerb::Unmount),
    Verb::Stores,
    Verb::Unit(UnitVerb::Default),
    Verb::Soup(SoupVerb::Soup),
    Verb::Unit(UnitVerb::Soups),
    Verb::Soup(SoupVerb::Drop),
    Verb::Addx,
    Verb::Addu,
    Verb::Entry(EntryVerb::Getx),
    Verb::Transfer(TransferVerb::Copy),
    Verb::Transfer(TransferVerb::Move),
    Verb::Entry(EntryVerb::Alias),
    Verb::Resolve,
    Verb::Vread,
    Verb::Vwrite,
    Verb::Index,
    Verb::Unindex,
    Verb::Soup(SoupVerb::Indexes),
    Verb::Tags,
    Verb::Info,
    Verb::Query,
    Verb::Cursor(CursorVerb::Reset),
    Verb::Cursor(CursorVerb::End),
    Verb::Moveby,
    Verb::Goto,
    Verb::Gotokey,
    Verb::Cursor(CursorVerb::Count),
    Verb::Cursor(CursorVerb::Which),
    Verb::Cursor(CursorVerb::Clone),
    Verb::Cursor(CursorVerb::Close),
    Verb::Watch,
    Verb::OfWatch(WatchVerb::Notes),
    Verb::OfWatch(WatchVerb::Unwatch),
    Verb::Entry(EntryVerb::Open),
    Verb::OfCopy(CopyVerb::Draft),
    Verb::Edit,
    Verb::OfCopy(CopyVerb::Save),
    Verb::OfCopy(CopyVerb::Revert),
    Verb::OfCopy(CopyVerb::Discard),
];

/// The verb that a word names.
pub(crate) fn named(word: &[u8]) -> Option<Verb>
    ensures { result ≡ find (λ verb. bytes_eq (word_of verb) word.now) VERBS }
{
    VERBS.iter().copied().find(|verb| verb.word() == word)
}

impl Verb {
    /// Its word.
    fn word(self) -> &'static [u8]
        ensures { result.now ≡ word_of self }
    {
        match self {
            Verb::Quit => b"quit",
            Verb::Stores => b"stores",
            Verb::Time => b"time",
            Verb::Nsof => b"nsof",
            Verb::Lit => b"lit",
            Verb::Resolve => b"resolve",
            Verb::Format => b"format",
            Verb::Add => b"add",
            Verb::Addx => b"addx",
            Verb::Addu => b"addu",
            Verb::Set => b"set",
            Verb::Change => b"change",
            Verb::Vread => b"vread",
            Verb::Vwrite => b"vwrite",
            Verb::Index => b"index",
            Verb::Unindex => b"unindex",
            Verb::Tags => b"tags",
            Verb::Info => b"info",
            Verb::Query => b"query",
            Verb::Moveby => b"moveby",
            Verb::Goto => b"goto",
            Verb::Gotokey => b"gotokey",
            Verb::Watch => b"watch",
            Verb::Edit => b"edit",
            Verb::Unit(verb) => verb.word(),
            Verb::Soup(verb) => verb.word(),
            Verb::Entry(verb) => verb.word(),
            Verb::Transfer(verb) => verb.word(),
            Verb::Cursor(verb) => verb.word(),
            Verb::OfWatch(verb) => verb.word(),
            Verb::OfCopy(verb) => verb.word(),
        }
    }
}

impl UnitVerb {
    /// Its word.
    fn word(self) -> &'static [u8]
        ensures { result.now ≡ unit_word self }
    {
        match self {
            UnitVerb::Mount => b"mount",
            UnitVerb::Unmount => b"unmount",
            UnitVerb::Default => b"default",
            UnitVerb::Soups => b"soups",
        }
    }

    /// The command that it begins.
    pub(crate) fn command(self, unit: Unit) -> Command
        ensures { result ≡ unit_command self unit }
    {
        match self {
            UnitVerb::Mount => Command::Mount(unit),
            UnitVerb::Unmount => Command::Unmount(unit),
            UnitVerb::Default => Command::Default(unit),
            UnitVerb::Soups => Command::Soups(unit),
        }
    }
}

impl SoupVerb {
    /// Its word.
    fn word(self) -> &'static [u8]
        ensures { result.now ≡ soup_word self }
    {
        match self {
            SoupVerb::Soup => b"soup",
            SoupVerb::Drop => b"drop",
            SoupVerb::Indexes => b"indexes",
        }
    }

    /// The command that it begins.
    pub(crate) fn command(self, unit: Unit, soup: Name) -> Command
        ensures { result ≡ soup_command self unit soup }
    {
        match self {
            SoupVerb::Soup => Command::Soup(unit, soup),
            SoupVerb::Drop => Command::Drop(unit, soup),
            SoupVerb::Indexes => Command::Indexes(unit, soup),
        }
    }
}

impl EntryVerb {
    /// Its word.
    fn word(self) -> &'static [u8]
        ensures { result.now ≡ entry_word self }
    {
        match self {
            EntryVerb::Get => b"get",
            EntryVerb::Getx => b"getx",
            EntryVerb::Remove => b"remove",
            EntryVerb::Alias => b"alias",
            EntryVerb::Open => b"open",
        }
    }

    /// The command that it begins.
    pub(crate) fn command(self, unit: Unit, soup: Name, uid: Uid) -> Command
        ensures { result ≡ entry_command self unit soup uid }
    {
        match self {
            EntryVerb::Get => Command::Get(unit, soup, uid),
            EntryVerb::Getx => Command::Getx(unit, soup, uid),
            EntryVerb::Remove => Command::Remove(unit, soup, uid),
            EntryVerb::Alias => Command::Alias(unit, soup, uid),
            EntryVerb::Open => Command::Open(unit, soup, uid),
        }
    }
}

impl TransferVerb {
    /// Its word.
    fn word(self) -> &'static [u8]
        ensures { result.now ≡ transfer_word self }
    {
        match self {
            TransferVerb::Copy => b"copy",
            TransferVerb::Move => b"move",
        }
    }

    /// The command that it begins.
    pub(crate) fn command(self, from: (Unit, Name, Uid), to: (Unit, Name)) -> Command
        ensures { result ≡ transfer_command self from.0 from.1 from.2 to.0 to.1 }
    {
        match self {
            TransferVerb::Copy => Command::Copy(from.0, from.1, from.2, to.0, to.1),
            TransferVerb::Move => Command::Move(from.0, from.1, from.2, to.0, to.1),
        }
    }
}

impl CursorVerb {
    /// Its word.
    fn word(self) -> &'static [u8]
        ensures { result.now ≡ cursor_word self }
    {
        match self {
            CursorVerb::Entry => b"entry",
            CursorVerb::Next => b"next",
            CursorVerb::Prev => b"prev",
            CursorVerb::Reset => b"reset",
            CursorVerb::End => b"end",
            CursorVerb::Count => b"count",
            CursorVerb::Which => b"which",
            CursorVerb::Clone => b"clone",
            CursorVerb::Close => b"close",
        }
    }

    /// The command that it begins.
    pub(crate) fn command(self, cursor: u8) -> Command
        ensures { result ≡ cursor_command self cursor }
    {
        match self {
            CursorVerb::Entry => Command::Entry(cursor),
            CursorVerb::Next => Command::Next(cursor),
            CursorVerb::Prev => Command::Prev(cursor),
            CursorVerb::Reset => Command::Reset(cursor),
            CursorVerb::End => Command::End(cursor),
            CursorVerb::Count => Command::Count(cursor),
            CursorVerb::Which => Command::Which(cursor),
            CursorVerb::Clone => Command::Clone(cursor),
            CursorVerb::Close => Command::Close(cursor),
        }
    }
}

impl WatchVerb {
    /// Its word.
    fn word(self) -> &'static [u8]
        ensures { result.now ≡ watch_word self }
    {
        match self {
            WatchVerb::Notes => b"notes",
            WatchVerb::Unwatch => b"unwatch",
        }
    }

    /// The command that it begins.
    pub(crate) fn command(self, watch: u8) -> Command
        ensures { result ≡ watch_command self watch }
    {
        match self {
            WatchVerb::Notes => Command::Notes(watch),
            WatchVerb::Unwatch => Command::Unwatch(watch),
        }
    }
}

impl CopyVerb {
    /// Its word.
    fn word(self) -> &'static [u8]
        ensures { result.now ≡ copy_word self }
    {
        match self {
            CopyVerb::Draft => b"draft",
            CopyVerb::Save => b"save",
            CopyVerb::Revert => b"revert",
            CopyVerb::Discard => b"discard",
        }
    }

    /// The command that it begins.
    pub(crate) fn command(self, copy: u8) -> Command
        ensures { result ≡ copy_command self copy }
    {
        match self {
            CopyVerb::Draft => Command::Draft(copy),
            CopyVerb::Save => Command::Save(copy),
            CopyVerb::Revert => Command::Revert(copy),
            CopyVerb::Discard => Command::Discard(copy),
        }
    }
}
