//! The line of a report.
ghost use Rattle.std.specs.Prelude.{◌≡◌, IfOk};
ghost use Rattle.newt_check.specs.Lines as spec;

use crate::report::Report;
use newt_spec_check::Layer;
use std::alloc::{AllocError, Global};

/// The word of a layer.
fn layer_word(layer: Layer) -> &'static str
    ensures { result.now ≡ spec.layer_word layer }
{
    match layer {
        Layer::Votes => "votes",
        Layer::Header => "header",
        Layer::RecordPlace => "record",
        Layer::Payload => "payload",
        Layer::Object => "object",
        Layer::Directory => "directory",
        Layer::Entry => "entry",
        Layer::Large => "large",
        Layer::Cost => "cost",
    }
}

/// The line of a clean image.
fn clean_line(alloc: Global, soups: u32, entries: u32, pages: u32) -> Result<Vec<u8>, AllocError>
    ensures { IfOk result (λ line. line.items ≡ spec.clean_line soups entries pages) }
{
    Ok(format!(in alloc; "ok clean {soups} {entries} {pages}\n")?.into_bytes())
}

/// The line of a damaged image.
fn damaged_line(alloc: Global, layer: Layer, place: u32) -> Result<Vec<u8>, AllocError>
    ensures { IfOk result (λ line. line.items ≡ spec.damaged_line layer place) }
{
    let word = layer_word(layer);
    Ok(format!(in alloc; "ok damaged {word} {place}\n")?.into_bytes())
}

/// The line of a report, with the byte 10 at its end.
pub(crate) fn report_line(alloc: Global, report: Report) -> Result<Vec<u8>, AllocError>
    ensures { IfOk result (λ line. line.items ≡ spec.report_line report) }
{
    match report {
        Report::Clean(soups, entries, pages) => clean_line(alloc, soups, entries, pages),
        Report::Damaged(layer, place) => damaged_line(alloc, layer, place),
    }
}
