//! The link types of a capture that are read.

ghost use Rattle.std.specs.Prelude.{◌≡◌, ℕ, List, false, None};
ghost use Rattle.tcp_segment.specs.Links.{is_link_read};
ghost use Rattle.tcp_segment.specs.Segments.{segment};

/// Whether packets of this link type are looked into. No packet of another link type has a segment.
#[tactic(auto, unfolding(crate::specs::Links::is_link_read, crate::specs::Segments::segment, crate::specs::Frames::packet_of))]
pub fn is_link_read(link: u16) -> bool
    ensures read { result ≡ is_link_read link }
    ensures none { result ≡ false → (octets : List ℕ) → segment link octets ≡ None }
{
    matches!(link, 0 | 1 | 12 | 14 | 101 | 108 | 113 | 228 | 229 | 276)
}
