#![tactic(auto)]
// What the benchmark links of the crate `bench_utf8`.
ghost use Rattle.std.specs.Prelude.{◌≡◌};
ghost use Rattle.bench_utf8.specs.Place.{bad_or_end};

// Where the first ill-formed character starts, or the source's size.
#[unsafe(no_mangle)]
pub extern "C" fn bench_first_bad(source: &[u8]) -> usize
    ensures { result ≡ bad_or_end source.now }
{
    bench_utf8::bench_first_bad(source)
}
