//! The bits of places as numbers: bit `k` of a word is that of place `k`.
ghost use Rattle.std.specs.Prelude.{◌≡◌, ◌<◌, ◌||◌, false, Bool, List, [], ◌∷◌, ◌++◌, length, take};
ghost use Rattle.frame_rules.specs.Fields.{is_set};
ghost use Rattle.tick_units.specs.declared.marks.Mark.{Mark};
ghost use Rattle.tick_units.specs.declared.marks.Symbol.{Symbol};
ghost use Rattle.tick_units.specs.declared.marks.Symbol.TheVariants.{Zero};
ghost use Rattle.frame_rules.specs.Words.{word_of};

// A word with the bit of the place after its marks.
#[inline]
pub fn with_bit(word: u64, bit: bool, place: usize) -> u64
    requires { place < 61 }
    ensures { (test : Symbol → Bool) (marks : List Mark) (mark : Mark) → word ≡ word_of test marks →
        length marks ≡ place
        → bit ≡ test mark.symbol → result ≡ word_of test (marks ++ mark ∷ []) }
{
    word | u64::from(bit) << place
}

// Whether the bit of a place is 1.
#[inline]
pub fn has(word: u64, place: usize) -> bool
    requires { place < 61 }
    ensures { (test : Symbol → Bool) (marks : List Mark) → word ≡ word_of test (take 61 marks) → test Zero ≡ false
        → result ≡ is_set test marks place }
{
    (word >> place) % 2 == 1
}

// Sets a flag where this is so, and writes nothing elsewhere.
#[inline]
pub fn raise(flag: &mut bool, is_so: bool)
    ensures { flag.new ≡ (flag.old || is_so) }
{
    if is_so {
        *flag = true;
    }
}
