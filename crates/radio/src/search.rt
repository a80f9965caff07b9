// The comparison that the search in received bytes makes at each place.
ghost use Rattle.std.specs.Prelude.{◌≡◌};
ghost use Rattle.radio.specs.Search.{alike_bytes, start};

// Whether bytes are a message's start: two zero bytes and the pattern. By `==` or `starts_with` the search takes a third longer.
#[tactic(auto, using(crate::proofs::SearchLaws::start_so, numbers::proofs::Tests::tests))]
pub(crate) fn is_start(bytes: &[u8]) -> bool
    ensures { result ≡ alike_bytes bytes.now start }
{
    matches!(bytes, b"\x00\x00\x00\xB2\x4D")
}
