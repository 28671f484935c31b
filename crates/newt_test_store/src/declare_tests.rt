//! Indexes and tags that are declared, spelt as a directory has them. First comes the number of
//! indexes; each index is its number of parts, and each part its kind, its order and its path. Then
//! comes whether there are tags, with their path, their number and each of them.
use crate::tables::play;
use newt_pageplain::PlainBook;
use std::test::Fail;

/// Sixteen indexes of paths of one letter, a path that is there but for ASCII case, and one too
/// many. An index goes, once; then there is room for another, and for the tags business and
/// personal.
const DECLARED: &str = "
index 0 01 010000010161 00 => soup
make S => 0
index 0 01 010000010161 00 => 0
index 0 01 010000010162 00 => 0
index 0 01 010000010163 00 => 0
index 0 01 010000010164 00 => 0
index 0 01 010000010165 00 => 0
index 0 01 010000010166 00 => 0
index 0 01 010000010167 00 => 0
index 0 01 010000010168 00 => 0
index 0 01 010000010169 00 => 0
index 0 01 01000001016A 00 => 0
index 0 01 01000001016B 00 => 0
index 0 01 01000001016C 00 => 0
index 0 01 01000001016D 00 => 0
index 0 01 01000001016E 00 => 0
index 0 01 01000001016F 00 => 0
index 0 01 010000010170 00 => 0
index 0 01 010000010143 00 => index
index 0 01 010000010171 00 => limit
unindex 0 01 010000010163 00 => 0
declared 0 => 15 0
unindex 0 01 010000010163 00 => 0
declared 0 => 15 0
index 0 01 010000010171 00 => 0
tags 0 00 01 01 06 6C6162656C73 02 08 627573696E657373 08 706572736F6E616C => 0
declared 0 => 16 2
reopen
declared 0 => 16 2
";

#[test]
fn indexes_and_tags_are_declared(rt: HostRuntime) -> Result<(), Fail> {
    play::<PlainBook>(rt.alloc(), 13, DECLARED)
}

/// Thirteen blocks take 38 pages: the directory and 37 entries. So the directory cannot grow to two
/// pages, as by an index of a path of 510 bytes.
const FILLED: &str = "
make S => 0
fill 0 0 37
index 0 01 01000002 FE 61*254 FE 61*254 00 => full
index 0 01 010000010161 00 => 0
unindex 0 01 010000010161 00 => 0
declared 0 => 0 0
";

#[test]
fn an_index_is_declared_only_where_it_fits(rt: HostRuntime) -> Result<(), Fail> {
    play::<PlainBook>(rt.alloc(), 13, FILLED)
}
