//! Tables of lines and replies.

use std::alloc::Global;
use std::test::Fail;

/// Appends a text so often, as in `0*64`.
fn push_many(to: &mut Vec<u8>, part: &str) -> Result<(), Fail> {
    let Some((text, count)) = part.split_once('*') else {
        return Err(Fail::new("no number of times"));
    };
    let count: u32 = count.parse()?;
    match text.as_bytes() {
        [byte] => to.resize(to.len().saturating_add(count as usize), *byte)?,
        bytes => {
            for _ in 0..count {
                to.extend_from_slice(bytes)?;
            }
        }
    }
    Ok(())
}

/// Appends a text. What stands in it between two `~` is a text and how often it stands there.
fn push_text(to: &mut Vec<u8>, text: &str) -> Result<(), Fail> {
    let mut is_many = false;
    for part in text.split('~') {
        if is_many {
            push_many(to, part)?;
        } else {
            to.extend_from_slice(part.as_bytes())?;
        }
        is_many = !is_many;
    }
    Ok(())
}

/// The bytes of a text in which `~0*64~` stands for 64 zeros.
pub fn expanded(alloc: Global, text: &str) -> Result<Vec<u8>, Fail> {
    let mut bytes = Vec::new(alloc);
    push_text(&mut bytes, text)?;
    Ok(bytes)
}

/// The script of a table and its output. A row is a line and, after ` => `, its reply; a line
/// without one has none. Blank rows are no lines.
pub fn lines_of(alloc: Global, table: &str) -> Result<(Vec<u8>, Vec<u8>), Fail> {
    let mut script = Vec::new(alloc);
    let mut output = Vec::new(alloc);
    for row in table.lines() {
        if row.is_empty() {
            continue;
        }
        let line = match row.split_once(" => ") {
            Some((line, reply)) => {
                push_text(&mut output, reply)?;
                output.push(b'\n')?;
                line
            }
            None => row,
        };
        push_text(&mut script, line)?;
        script.push(b'\n')?;
    }
    Ok((script, output))
}
