//! Small streams. What is read has its two texts, the written one and the flat one, and what is
//! refused is refused for its reason. A stream that is cut off anywhere is malformed.
use crate::tables::expect_answers;
use std::test::Fail;

/// Streams that are written again as they stand, and streams that are written in another form.
const WRITTEN: &str = "
# A frame with the slot a, whose value is 1.
02 0601 0701 'a 0004 => kept
# 64, the least number whose word needs the long form.
02 00FF00000100 => kept
# -1: a word with a sign.
02 00FFFFFFFFFC => kept
# Nil, true, the last character of one byte, the first of two.
02 0A => kept
02 001A => kept
02 01FF => kept
02 020100 => kept
# The last character, and a word of its form that is none.
02 02FFFF => kept
02 00FF00100006 => kept
# A frame that holds itself, and an array that does.
02 0601 0704 'self 0900 => kept
02 0501 0900 => kept
# One string in two slots, and a string with a zero in it.
02 0502 0804 00 'A 0000 0901 => kept
02 0806 0000D8000000 => kept
# The class of an array is named again as a tag, and the tag as a value.
02 0401 0701 'c 0601 0901 0901 => kept
# A binary, and two binaries of one class.
02 0302 0701 'xhi => kept
02 0502 0300 0701 'x 0301 0902 'z => kept
# A large binary that is not compressed, and one of no bytes.
02 0C 0703 'foo 00 00000001 00000000 00000000 00000000 'A => kept => 1
02 0C 0703 'foo 00 00000000 00000000 00000000 00000000 => kept
# Large binaries, whose bytes no skeleton has.
02 0502 0C 0703 'foo 00 00000002 00000000 00000000 00000000 'AB 0302 0902 'hi => kept => 2
02 0502 0C 0701 'x 00 00000003 00000000 00000000 00000000 'abc 0C 0902 00 00000001 00000000 00000000 00000000 'd => kept => 4
# From here on another form is written: of the long form of a small number.
02 00FF00000014 => 02 0014
02 05FF00000001 09FF00000000 => 02 0501 0900
# Nil and a character as words.
02 0002 => 02 0A
02 00FF00000416 => 02 01 'A
02 0200 'A => 02 01 'A
# Two spellings of one symbol: the first stays, and each takes a number.
02 0502 0703 'Foo 0703 'foo => 02 0502 0703 'Foo 0901
02 0504 0701 'a 0701 'A 0500 0903 => 02 0504 0701 'a 0901 0500 0902
# A compander's name, its parameters and the free number are dropped.
02 0C 0703 'foo 00 00000001 00000002 00000000 00000000 'abA => 02 0C 0703 'foo 00 00000001 00000000 00000000 00000000 'A => 1
02 0C 0703 'foo 00 00000001 00000000 00000002 80000001 'pqA => 02 0C 0703 'foo 00 00000001 00000000 00000000 00000000 'A => 1
";

#[test]
fn what_is_read_is_written_in_one_form(rt: HostRuntime) -> Result<(), Fail> {
    expect_answers(rt.alloc(), WRITTEN)
}

/// Streams with small rectangles, whose two texts differ.
const RECTANGLES: &str = "
# After ` / ` stands the flat text, which has a small rectangle as a frame of four integers.
02 0B01020304 => kept / 02 0604 sides 0004 0008 000C 0010
02 0604 sides 00FF000003FC 0008 000C 0000 => 02 0BFF020300 / kept
02 0604 sides 00FF000003F8 0008 000C 0000 => 02 0BFE020300 / kept
# 256 and -1 are no sides, nor is what is no integer: nil, a character, a magic pointer, an object, the frame itself.
02 0604 sides 00FF00000400 0008 000C 0010 => kept
02 0604 sides 0004 0008 000C 00FFFFFFFFFC => kept
02 0604 sides 0A 0008 000C 0010 => kept
02 0604 sides 0004 0101 000C 0010 => kept
02 0604 sides 0004 0008 0003 0010 => kept
02 0604 sides 0004 0008 000C 0500 => kept
02 0604 sides 0900 0008 000C 0010 => kept
# Other tags: in another order, of three and of five slots, a name that is longer.
02 0604 0704 'left 0703 'top 0706 'bottom 0705 'right 0004*4 => kept
02 0603 0703 'top 0704 'left 0706 'bottom 0004*3 => kept
02 0605 sides 0701 'k 0004*5 => kept
02 0604 0703 'top 0704 'left 0706 'bottom 0706 'rights 0004*4 => kept
# Its tags take no numbers: a symbol that stands in it is written in full where it is met again, with the next number.
02 0502 0B01020304 0703 'top => kept / 02 0502 0604 sides 0004 0008 000C 0010 0902
02 0503 0B01020304 0703 'top 0902 => kept / 02 0503 0604 sides 0004 0008 000C 0010 0902 0902
02 0502 0B00000000 0704 'LEFT => 02 0502 0B00000000 0704 'left / 02 0502 0604 sides 0000*4 0903
# So it is with a tag, a class, and the class of a large binary.
02 0502 0B00000000 0602 0706 'bottom 0703 'top 0902 0903 => kept / 02 0502 0604 sides 0000*4 0602 0904 0902 0906 0904
02 0503 0B00000000 0401 0705 'right 0A 0300 0903 => kept / 02 0503 0604 sides 0000*4 0401 0905 0A 0300 0905
02 0502 0B00000000 0C 0703 'top 00 00000001 00000000 00000000 00000000 'A => kept / 02 0502 0604 sides 0000*4 0C 0902 00 00000001 00000000 00000000 00000000 'A => 1
# Symbols that were met before it keep their numbers and their spelling.
02 0502 0703 'top 0604 0901 0704 'left 0706 'bottom 0705 'right 0004*4 => 02 0502 0703 'top 0B01010101 / kept
02 0504 0703 'TOP 0B010203FF 0704 'left 0903 => kept / 02 0504 0703 'TOP 0604 0901 0704 'left 0706 'bottom 0705 'right 0004 0008 000C 00FF000003FC 0903 0903
02 0505 0705 'Right 0706 'botTom 0704 'LEFT 0703 'toP 0B01020304 => kept / 02 0505 0705 'Right 0706 'botTom 0704 'LEFT 0703 'toP 0604 0904 0903 0902 0901 0004 0008 000C 0010
# A tag that is met in the frame first stands in lower case, or the frame is not small.
02 0604 0703 'Top 0704 'left 0706 'bottom 0705 'right 0004 0008 000C 0010 => kept
02 0604 0703 'top 0704 'left 0706 'bottom 0705 'righT 0004 0008 000C 0010 => kept
02 0502 0604 0703 'Top 0704 'left 0706 'bottom 0705 'right 0004*4 0B01020304 => kept / 02 0502 0604 0703 'Top 0704 'left 0706 'bottom 0705 'right 0004*4 0604 0902 0903 0904 0905 0004 0008 000C 0010
02 0503 0703 'top 0604 0901 0704 'Left 0706 'bottom 0705 'right 0004*4 0B01020304 => kept / 02 0503 0703 'top 0604 0901 0704 'Left 0706 'bottom 0705 'right 0004*4 0604 0901 0903 0904 0905 0004 0008 000C 0010
# Two rectangles, and one that is met twice.
02 0502 0B01020304 0B05060708 => kept / 02 0502 0604 sides 0004 0008 000C 0010 0604 0902 0903 0904 0905 0014 0018 001C 0020
02 0503 0B01020304 0901 0901 => kept / 02 0503 0604 sides 0004 0008 000C 0010 0901 0901
02 0504 0B01020304 0901 0703 'top 0902 => kept / 02 0504 0604 sides 0004 0008 000C 0010 0901 0902 0902
# In an array of a class, which may be a side.
02 0403 0701 'c 0B01020304 0902 0704 'left => kept / 02 0403 0701 'c 0604 sides 0004 0008 000C 0010 0902 0904
02 0402 0703 'Top 0B01020304 0902 => kept / 02 0402 0703 'Top 0604 0901 0704 'left 0706 'bottom 0705 'right 0004 0008 000C 0010 0902
# In frames, of which one has the tags of a rectangle, and is none since a rectangle is no integer.
02 0602 0704 'left 0703 'top 0B01020304 0903 => kept / 02 0602 0704 'left 0703 'top 0604 0902 0901 0706 'bottom 0705 'right 0004 0008 000C 0010 0903
02 0604 sides 0B01020304 0B05060708 0905 0900 => kept / 02 0604 sides 0604 0901 0902 0903 0904 0004 0008 000C 0010 0604 0901 0902 0903 0904 0014 0018 001C 0020 0905 0900
";

#[test]
fn rectangles_are_written_small(rt: HostRuntime) -> Result<(), Fail> {
    expect_answers(rt.alloc(), RECTANGLES)
}

/// Bytes that spell no graph, or spell one but for a flag.
const REFUSED: &str = "
# No bytes, the version alone, another version, a tag that there is none of.
00*0 => malformed
02 => malformed
01 0A => malformed
02 0D => malformed
# A word that is a pointer.
02 0005 => malformed
# Bytes after the object.
02 0A 0A => malformed
02 0500 00 => malformed
# Counts and numbers below 0, and a count with no slots after it.
02 05FFFFFFFFFF => malformed
02 06FFFFFFFFFF => malformed
02 0501 09FFFFFFFFFF => malformed
02 05FF0000FFFF => malformed
02 06FF0000FFFF => malformed
# More slots than there may be.
02 05FF00010000 => malformed
# A precedent of an object that is not yet met, and of itself.
02 0905 => malformed
02 0900 => malformed
02 0502 0701 'a 0902 => malformed
# Strings: of an odd length, of no unit, with a last unit that is not 0.
02 0801 'A => malformed
02 0803 00 'A 00 => malformed
02 0800 => malformed
02 0804 00 'A 00 'B => malformed
# Equal tags, in two spellings and by a precedent.
02 0602 0701 'a 0701 'A 0A 0A => malformed
02 0602 0701 'a 0901 0A 0A => malformed
# A tag and classes that are no symbols: nil, a string, the array itself.
02 0601 0A 0A => malformed
02 0300 0802 0000 => malformed
02 0400 0900 => malformed
02 0300 0900 => malformed
# Names: of no byte, with a control character, with a byte above 126.
02 0700 => malformed
02 0701 1F => malformed
02 0701 7F => malformed
# A name and a binary with too few bytes.
02 0702 'a => malformed
02 0303 0701 'xhi => malformed
# A large binary of more bytes than there are, marked as compressed, and of more than there may be.
02 0C 0703 'foo 01 00000002 00000000 00000000 00000000 'A => malformed
02 0C 0703 'foo 00 000F4241 00000000 00000000 00000000 'A => malformed
02 0C 0703 'foo 00 FFFFFFFF FFFFFFFF FFFFFFFF FFFFFFFF 'A => malformed
# Streams that are read but for a flag.
02 0C 0703 'foo 01 00000001 00000000 00000000 00000000 'A => compressed
02 0502 0C 0701 'x 00 00000000 00000000 00000000 00000000 0C 0902 FF 00000000 00000000 00000000 00000000 => compressed
";

#[test]
fn what_is_refused_has_its_reason(rt: HostRuntime) -> Result<(), Fail> {
    expect_answers(rt.alloc(), REFUSED)
}
