#![tactic(auto)]
// The UTF-8 pass by itself, for the benchmark: the library's entries have no call that does no more.
ghost use Rattle.std.specs.Prelude.{◌≡◌};
ghost use Rattle.bench_utf8.specs.Place.{bad_or_end};

// Where the first ill-formed character starts, or the source's size.
#[tactic(auto, unfolding(crate::specs::Place::bad_or_end))]
#[unsafe(no_mangle)]
pub extern "C" fn bench_first_bad(source: &[u8]) -> usize
    ensures { result ≡ bad_or_end source.now }
{
    utf8::first_bad(source).unwrap_or(source.len())
}
