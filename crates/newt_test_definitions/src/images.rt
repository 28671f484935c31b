//! Stores from the objects of an image.
#![tactic(auto, unfolding(crate::proofs::Tables::open_tables))]

ghost use Rattle.std.specs.Prelude.{◌≡◌, [], ◌∷◌, ◌++◌, codes, Some, None};
ghost use Rattle.newt_base.specs.Text.{hex_text};
ghost use Rattle.newt_spec_store.specs.Cost.{directory_bytes};
ghost use Rattle.newt_spec_store.specs.StoreOf.{store_of};
ghost use Rattle.newt_test_definitions.specs.Images.{internal, with_wave, objects_with_wave};
ghost use Rattle.newt_test_definitions.specs.Images.{reads_wave, reads_slot, with_slot};

pub fn a_new_directory()
    ensures { hex_text (directory_bytes internal) ≡ codes "08496E7465726E616C00000007000000" }
{}

// A store without info frames is written and read alike in both versions.

pub fn a_new_store_is_read()
    ensures version_1 { store_of reads_wave 1 ((0, directory_bytes internal) ∷ []) 13
        ≡ Some internal }
    ensures version_2 { store_of reads_wave 2 ((0, directory_bytes internal) ∷ []) 13
        ≡ Some internal }
{}

pub fn an_entry_with_a_large_binary_is_read()
    ensures version_1 { store_of reads_wave 1 objects_with_wave 13 ≡ Some with_wave }
    ensures version_2 { store_of reads_wave 2 objects_with_wave 13 ≡ Some with_wave }
{}

pub fn a_stray_object_is_no_store()
    ensures { store_of reads_wave 2 ((4, []) ∷ objects_with_wave) 13 ≡ None }
{}

pub fn a_directory_with_an_info_frame()
    ensures { hex_text (directory_bytes with_slot) ≡ codes "08496E7465726E616C00000007000101" ++
        codes "015300000000000000" ++ codes "0200080206010701610004" }
{}

pub fn an_info_frame_is_read_in_version_2_alone()
    ensures version_1 { store_of reads_slot 1 ((0, directory_bytes with_slot) ∷ []) 13 ≡ None }
    ensures version_2 { store_of reads_slot 2 ((0, directory_bytes with_slot) ∷ []) 13
        ≡ Some with_slot }
{}
