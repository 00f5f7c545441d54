//! The usage line.
ghost use Rattle.std.specs.Prelude.{◌≡◌};
ghost use Rattle.dpe_words.specs.Usage.{usage_line};

/// The answer to arguments that are invalid, with its newline.
#[tactic(auto, unfolding(crate::specs::Usage::usage_line))]
pub fn usage_line() -> &'static str
    ensures { result.now ≡ usage_line }
{
    "usage: dpe [--mode M] [--enumerator E] [--buffer N] [--workers N] [--model M] [--format F] [--stats S] [--number N]\n"
}
