//! The layouts of a checkpoint, and the fields in which they differ.

ghost use Rattle.std.specs.Prelude.{◌≡◌, ◌↔◌, ◌+◌, ◌≤◌, ◌++◌, ℕ, true, Option, Some, IsTrue};
ghost use Rattle.arrayvec.specs.ArrayVec.{array_vec_len};
ghost use Rattle.giop_octets.specs.Fields.{four};
ghost use Rattle.giop_checkpoint.specs.Layouts.{OpenHasRange, OwnerFits, MixedFits, version_of, layout_of, reads_layout, owner_octet, mixed_octet, limit_octets};
ghost use Rattle.giop_checkpoint.specs.declared.layout.Layout.{Layout as LayoutOf};

use crate::sizes::{LAYOUT_2_MOST_OPEN, MOST_OPEN};
use crate::state::same;
use arrayvec::ArrayVec;
use giop_octets::{put_four, put_octets, put_zeros};

/// How the octets of a checkpoint are arranged. All layouts are read; the third and the latest are
/// written.
#[derive(Clone, Copy, Debug, PartialEq, Eq)]
pub enum Layout {
    /// The layout doesn't store how many messages may be open at once: there may be 16.
    Second = 2,
    /// The layout stores how many messages may be open at once.
    Third = 3,
    /// The layout for a stream that is read with a signature file of version 3. It is the third, and
    /// stores also whether messages of GIOP 1.1 are mixed. Its version goes up if such files gain
    /// types, or if the numbers of their types change.
    Latest = 9,
}

impl Layout {
    /// The octets of the layout's version.
    #[tactic(auto, unfolding(giop_octets::specs::Fields::four))]
    pub fn version(self) -> [u8; 4]
        ensures { result ≡ four (version_of self) }
    {
        match self {
            Layout::Second => [0, 0, 0, 2],
            Layout::Third => [0, 0, 0, 3],
            Layout::Latest => [0, 0, 0, 9],
        }
    }

    /// The layout of the version with these octets.
    pub fn of(octets: &[u8]) -> Option<Layout>
        ensures { (layout : LayoutOf) →
            (result ≡ Some layout) ↔ (octets.now ≡ four (version_of layout)) }
    {
        if same(octets, &Layout::Second.version()) {
            return Some(Layout::Second);
        }
        if same(octets, &Layout::Third.version()) {
            return Some(Layout::Third);
        }
        if same(octets, &Layout::Latest.version()) {
            return Some(Layout::Latest);
        }
        None
    }

    /// The layout of the version with these octets, if it is read with a signature file of this version.
    pub(crate) fn of_if_read(octets: &[u8], version: u8) -> Option<Layout>
        ensures { (layout : LayoutOf) → (result ≡ Some layout)
            ↔ ((octets.now ≡ four (version_of layout)) × (reads_layout version layout ≡ true)) }
    {
        let layout = Layout::of(octets)?;
        if layout.is_read(version) {
            Some(layout)
        } else {
            None
        }
    }

    /// Whether checkpoints in this layout are read with a signature file of this version.
    fn is_read(self, version: u8) -> bool
        ensures { result ≡ reads_layout version self }
    {
        match self {
            Layout::Second | Layout::Third => version < 3,
            Layout::Latest => version >= 3,
        }
    }

    /// The layout in which checkpoints are written with a signature file of this version.
    pub fn written(version: u8) -> Layout
        ensures is { result ≡ layout_of version }
        ensures fits { (owner : Option ℕ) → OwnerFits result owner }
    {
        if version >= 3 {
            Layout::Latest
        } else {
            Layout::Third
        }
    }

    /// Whether this many messages may be open at once in this layout.
    pub(crate) fn allows_most_open(self, most_open: u32) -> bool
        ensures { IsTrue result ↔ OpenHasRange self most_open }
    {
        match self {
            Layout::Second => most_open == LAYOUT_2_MOST_OPEN,
            Layout::Third | Layout::Latest => 1 <= most_open && most_open <= MOST_OPEN,
        }
    }

    /// The octet of the place that names the payload's record. It is zero if other octets name the
    /// record.
    pub(crate) fn owner_octet(self, owner: Option<u32>) -> u8
        requires { OwnerFits self owner }
        ensures { result ≡ owner_octet self owner }
    {
        match self {
            Layout::Second => match owner {
                Some(record) => record as u8,
                None => 255,
            },
            Layout::Third | Layout::Latest => 0,
        }
    }

    /// Whether messages of GIOP 1.1 may be mixed in this layout, if they are.
    pub(crate) fn allows_mixed(self, is_mixed: bool) -> bool
        ensures { IsTrue result ↔ MixedFits self is_mixed }
    {
        match self {
            Layout::Second | Layout::Third => !is_mixed,
            Layout::Latest => true,
        }
    }

    /// The octet that tells whether messages of GIOP 1.1 are mixed. It is zero before the latest
    /// layout.
    fn mixed_octet(self, is_mixed: bool) -> u8
        ensures { result ≡ mixed_octet self is_mixed }
    {
        match self {
            Layout::Second | Layout::Third => 0,
            Layout::Latest => u8::from(is_mixed),
        }
    }

    /// Writes the fields after the place.
    pub(crate) fn write_limits<const N: usize>(
        self,
        most_open: u32,
        owner: Option<u32>,
        is_mixed: bool,
        out: &mut ArrayVec<u8, N>,
    )
        requires room { array_vec_len out.old + 16 ≤ N }
        ensures put { out.new.items
            ≡ out.old.items ++ limit_octets self most_open owner is_mixed }
        ensures len { array_vec_len out.new ≡ array_vec_len out.old + 16 }
    {
        match self {
            Layout::Second => put_zeros(out, 16),
            Layout::Third | Layout::Latest => {
                put_four(out, most_open);
                put_four(out, owner.unwrap_or(4_294_967_295));
                put_octets(out, &[self.mixed_octet(is_mixed)]);
                put_zeros(out, 7);
            }
        }
    }
}
