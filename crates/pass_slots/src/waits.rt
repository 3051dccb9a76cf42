//! What a pass keeps of its looks at other passes' sections.
ghost use Rattle.std.specs.Prelude.{◌≡◌, ◌<◌, ◌≤◌, Some, true};
ghost use Rattle.index_words.specs.declared.view.slots.Looks.{Looks};
ghost use Rattle.index_words.specs.Views.{no_looks};
ghost use Rattle.key_map.specs.Lists.{has};
ghost use Rattle.core_grace.specs.Batches.{all_passed, looked_at, lets_pass};
ghost use Rattle.pass_slots.specs.Owned.{KeepsLooks};

use core_grace::passed;
use std::marker::Model;

/// The greatest number of passes that a table can have.
const PASSES: usize = 32;

/// What the looks at other passes' sections have shown since a wait began: the odd word that was found first, and
/// whether the pass was outside a section since.
#[derive(Drop)]
pub struct Waits {
    first: [Option<u64>; 32],
    passed: [bool; 32],
    /// Where it is true there was no look.
    fresh: bool,
}

impl Model for Waits {
    ghost use Rattle.std.specs.Prelude.{◌≡◌, true};
    ghost use Rattle.index_words.specs.Views.{no_looks};
    ghost use Rattle.pass_slots.specs.Owned.{Shown, KeepsLooks};

    ghost Value = { Shown };

    ghost view = { λ w. record { first = w.first; passed = w.passed } };

    ghost invariant = { λ w. w.fresh ≡ true → KeepsLooks no_looks (record { first = w.first; passed = w.passed }) };
}

fn may_pass(first: Option<u64>, word: u64) -> bool
    ensures { result ≡ lets_pass first word }
{
    match first {
        None => word % 2 == 0,
        Some(first) => passed(first, word),
    }
}

impl Waits {
    /// No looks.
    pub fn none() -> Waits
        ensures { KeepsLooks no_looks result }
    {
        Waits {
            first: [None; PASSES],
            passed: [false; PASSES],
            fresh: true,
        }
    }

    /// Whether no look was made since all were forgotten.
    pub fn is_fresh(&self) -> bool
        ensures { result ≡ true → KeepsLooks no_looks self.now }
    {
        self.fresh
    }

    /// Forgets all looks.
    pub fn clear(&mut self)
        ensures { KeepsLooks no_looks self.new }
    {
        if !self.fresh {
            *self = Waits::none();
        }
    }

    /// Whether each of the first `passes` is this one or was passed.
    pub fn is_done(&self, passes: u32, number: u32) -> bool
        requires { passes ≤ 32 }
        ensures { (g : Looks) → KeepsLooks g self.now → result ≡ all_passed passes (Some number) g.passed }
    {
        if passes == 0 {
            return true;
        }
        let pass = passes - 1;
        if number != pass && !self.passed[pass as usize] {
            return false;
        }
        self.is_done(pass, number)
    }

    /// Whether this pass was passed.
    pub fn was_passed(&self, pass: u32) -> bool
        requires { pass < 32 }
        ensures { (g : Looks) → KeepsLooks g self.now → result ≡ has pass g.passed }
    {
        self.passed[pass as usize]
    }

    /// Adds a look that found `word` as the section word of `pass`.
    pub fn look_at(&mut self, pass: u32, word: u64)
        requires { pass < 32 }
        ensures { (g : Looks) → KeepsLooks g self.old → KeepsLooks (looked_at g pass word) self.new }
    {
        let at = pass as usize;
        self.fresh = false;
        if self.passed[at] {
            return;
        }
        if may_pass(self.first[at], word) {
            self.passed[at] = true;
            return;
        }
        if self.first[at].is_none() {
            self.first[at] = Some(word);
        }
    }
}
