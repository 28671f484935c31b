//! What is known of the numbers of a batch without a look at all of them.
ghost use Rattle.std.specs.Prelude.{◌<◌, ℕ, List};
ghost use Rattle.newt_spec_image.specs.Pages.{Change};
ghost use Rattle.newt_pagebook.specs.Batch.{IsMarked, puts_one, deletes_one};

/// Each number from `from` on and below `to` is put, and none from `end` on is named.
#[derive(Clone, Copy, Debug)]
pub struct Marks {
    pub from: u32,
    pub to: u32,
    pub end: u32,
}

/// When this number is put too. A row goes on while the numbers do.
pub(crate) fn marks_with_put(marks: Marks, number: u32) -> Marks
    requires { number < 65536 }
    ensures { (change : Change) (page : List ℕ) → IsMarked change marks
        → IsMarked (puts_one change number page) result }
{
    let from = if number == marks.to {
        marks.from
    } else {
        number
    };
    Marks {
        from,
        to: number + 1,
        end: marks.end.max(number + 1),
    }
}

/// When this number is deleted too.
pub(crate) fn marks_with_delete(marks: Marks, number: u32) -> Marks
    requires { number < 65536 }
    ensures { (change : Change) → IsMarked change marks
        → IsMarked (deletes_one change number) result }
{
    Marks {
        from: marks.from,
        to: marks.to,
        end: marks.end.max(number + 1),
    }
}
