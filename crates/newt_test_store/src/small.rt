//! A small store, and its image, spelt by hand.

/// What the small store has.
pub(crate) const SMALL: &str = "Internal 7 2; S 0 3; T 1 2; 0 0 10 0206010701610004; \
    0 2 12 0206010701730806006800690000; 1 1 11 020600";

/// What its image has without the second record.
pub(crate) const BEFORE: &str =
    "Internal 7 2; S 0 1; T 1 2; 0 0 10 0206010701610004; 1 1 11 020600";

/// The image of two records, after three blocks of votes and the head of bank 0. The first record
/// has the directory with two soups, the entry 0 of the first and the entry 1 of the second. The
/// second has the directory in which the next id of the first soup is 3, and the entry 2 of that
/// soup. Each page goes on with zeros.
pub(crate) const IMAGE: &str = "
00 FF*4095
00 FF*4095
00 FF*4095
4E53544F5245 0002 0000000000000000

00 00000610 0003 0000
00000000 00000000 00000000 00000024
  08496E7465726E616C 00000007 0002 02
  0153 0000 00000001 0000
  0154 0001 00000002 0000
  00*464
00000001 00000001 00000000 00000014
  0000 0000 00000000 0000000A
  0206010701610004
  00*480
00000002 00000003 00000000 0000000F
  0001 0000 00000001 0000000B
  020600
  00*485

00 0000040C 0002 0000
00000000 00000000 00000000 00000024
  08496E7465726E616C 00000007 0002 02
  0153 0000 00000003 0000
  0154 0001 00000002 0000
  00*464
00000003 00000005 00000000 0000001A
  0000 0000 00000002 0000000C
  0206010701730806006800690000
  00*474
FF*38346
";

/// Bank 0 of a fresh store of the name `Internal` and the signature 7.
pub(crate) const FRESH: &str = "
4E53544F5245 0002 0000000000000000
00 00000208 0001 0000
00000000 00000000 00000000 00000010
  08496E7465726E616C 00000007 0000 00
  00*484
FF*19939
";
