//! The rows of the tables of the tests.

use std::test::Fail;

/// What stands before and after ` => ` in a row; none for a blank row, and for a comment, which
/// begins with `#`.
pub(crate) fn sides(row: &str) -> Result<Option<(&str, &str)>, Fail> {
    if row.is_empty() || row.starts_with('#') {
        return Ok(None);
    }
    Ok(Some(row.split_once(" => ").ok_or("a row without ` => `")?))
}
