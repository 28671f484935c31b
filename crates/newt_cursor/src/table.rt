//! The entries on which cursors stand, in order, each with its cursors.
ghost use Rattle.std.specs.Prelude.{◌≡◌, ◌<◌, ◌≤◌, IfSome, not, filter, length};
ghost use Rattle.std.specs.List.{insert, position, position_or_len};
ghost use Rattle.arrayvec.specs.ArrayVec.{array_vec_len};
ghost use Rattle.newt_cursor.specs.Table.{is_row, is_before, held, others, with_row};

use arrayvec::ArrayVec;
use newt_base::{Sig, Uid};

/// The row of an entry on which cursors stand: bit c is that of cursor c.
#[derive(Clone, Copy)]
pub(crate) struct Row {
    pub(crate) store: Sig,
    pub(crate) soup: Sig,
    pub(crate) uid: Uid,
    pub(crate) cursors: u32,
}

impl Default for Row {
    fn default() -> Row {
        Row {
            store: Sig(0),
            soup: Sig(0),
            uid: Uid(0),
            cursors: 0,
        }
    }
}

impl Row {
    /// Whether it is the row of this entry.
    fn is_of(&self, store: Sig, soup: Sig, uid: Uid) -> bool
        ensures { result ≡ is_row store soup uid self.now }
    {
        self.store == store && self.soup == soup && self.uid == uid
    }

    /// Whether it is before another, by the store, the soup and the id.
    fn is_before(&self, other: &Row) -> bool
        ensures { result ≡ is_before self.now other.now }
    {
        self.store.0 < other.store.0
            || self.store == other.store
                && (self.soup.0 < other.soup.0
                    || self.soup == other.soup && self.uid.0 < other.uid.0)
    }
}

/// The cursors of the row of an entry; none where it has no row.
pub(crate) fn cursors_on(rows: &ArrayVec<Row, 32>, store: Sig, soup: Sig, uid: Uid) -> u32
    ensures { result ≡ held store soup uid rows.now.items }
{
    match rows
        .as_slice()
        .iter()
        .find(|row| row.is_of(store, soup, uid))
    {
        Some(row) => row.cursors,
        None => 0,
    }
}

/// Gives an entry this row in place of its own; without cursors, the entry has no row.
pub(crate) fn set_row(rows: &mut ArrayVec<Row, 32>, row: Row)
    requires { 0 < row.cursors → length (others row.store row.soup row.uid rows.old.items) < 32 }
    ensures { rows.new.items ≡ with_row row rows.old.items }
{
    remove_row(rows, row.store, row.soup, row.uid);
    if row.cursors > 0 {
        add_row(rows, row);
    }
}

/// Removes the row of an entry.
fn remove_row(rows: &mut ArrayVec<Row, 32>, store: Sig, soup: Sig, uid: Uid)
    ensures { rows.new.items ≡ filter (λ row. not (is_row store soup uid row)) rows.old.items }
{
    rows.retain(|row| !row.is_of(store, soup, uid));
}

/// Inserts a row before the first that it is before.
fn add_row(rows: &mut ArrayVec<Row, 32>, row: Row)
    requires { array_vec_len rows.old < 32 }
    ensures { rows.new.items
        ≡ insert rows.old.items (position_or_len (is_before row) rows.old.items) row }
{
    let at = place_for(rows.as_slice(), &row);
    rows.insert(at, row);
}

/// The place of the first row that this one is before, or the number of rows.
#[tactic(auto, using(crate::proofs::Rows::at_first, crate::proofs::Rows::at_end))]
fn place_for(rows: &[Row], row: &Row) -> usize
    ensures value { result ≡ position_or_len (is_before row.now) rows.now }
    ensures bound { result ≤ length rows.now }
{
    match first_after(rows, row) {
        Some(at) => at,
        None => rows.len(),
    }
}

/// The place of the first row that this one is before, if there is one.
fn first_after(rows: &[Row], row: &Row) -> Option<usize>
    ensures place { result ≡ position (is_before row.now) rows.now }
    ensures below { IfSome result (λ at. at < length rows.now) }
{
    rows.iter().position(|other| row.is_before(other))
}
