//! The header of a frame, and whether it may come (AMQP 0-10, "transport", "frames").
ghost use Rattle.std.specs.Prelude.{◌≡◌, ◌≤◌, ◌<◌, ◌^◌, ◌==◌, not, bit_and, Option};
ghost use Rattle.amqp_frames.specs.Cut.{header_in, is_set, is_first_segment, is_last_segment, is_first_frame, is_last_frame, ends_assembly, in_place, form_fault, size_fault, payload_of_header};

use octet_reading::Why;

/// The octets of a frame's header.
pub(crate) const HEADER: u16 = 12;

/// The most octets of an assembly's segments.
pub(crate) const MOST_ASSEMBLED: u32 = 16_777_216;

/// The most octets of the unfinished assemblies of a connection.
pub(crate) const MOST_OPEN: u32 = 33_554_432;

/// The greatest channel.
const LAST_CHANNEL: u16 = 63;

/// The place from which on no frame may begin.
const FAR_PLACE: u64 = 4_611_686_018_427_387_904;

/// What the first twelve octets of a frame say.
#[derive(Clone, Copy, Debug, PartialEq, Eq)]
pub(crate) struct FrameHeader {
    pub(crate) flags: u8,
    /// The segment's type: 0 control, 1 command, 2 header, 3 body.
    pub(crate) kind: u8,
    /// The frame's octets, its header's 12 included.
    pub(crate) size: u16,
    pub(crate) track: u8,
    pub(crate) channel: u16,
}

impl FrameHeader {
    /// The header that twelve octets hold. Reserved bits are passed over.
    #[tactic(auto, unfolding(crate::specs::Cut::header_in))]
    pub(crate) fn of(octets: &[u8; 12]) -> FrameHeader
        ensures { result ≡ header_in octets.now }
    {
        let [flags, kind, high, low, _, track, upper, lower, _, _, _, _] = octets;
        FrameHeader {
            flags: *flags,
            kind: *kind,
            size: u16::from_be_bytes([*high, *low]),
            track: *track & 0x0f,
            channel: u16::from_be_bytes([*upper, *lower]),
        }
    }

    /// The octets of its payload.
    pub(crate) fn payload(self) -> u32
        ensures value { result ≡ payload_of_header self }
        ensures small { self.size < 2 ^ 16 }
    {
        u32::from(self.size.saturating_sub(HEADER))
    }

    /// Whether it belongs to the first segment of its assembly.
    fn is_first_segment(self) -> bool
        ensures { result ≡ is_first_segment self }
    {
        self.flags & 8 != 0
    }

    /// Whether it belongs to the last segment of its assembly.
    fn is_last_segment(self) -> bool
        ensures { result ≡ is_last_segment self }
    {
        self.flags & 4 != 0
    }

    /// Whether it is the first frame of its segment.
    fn is_first_frame(self) -> bool
        ensures { result ≡ is_first_frame self }
    {
        self.flags & 2 != 0
    }

    /// Whether it is the last frame of its segment.
    fn is_last_frame(self) -> bool
        ensures { result ≡ is_last_frame self }
    {
        self.flags & 1 != 0
    }

    /// Whether it is the last frame of its assembly.
    pub(crate) fn ends_assembly(self) -> bool
        ensures { result ≡ ends_assembly self }
    {
        self.is_last_segment() && self.is_last_frame()
    }

    /// Whether it may begin an assembly.
    fn begins(self) -> bool
        ensures { result ≡ in_place None self }
    {
        let first = self.is_first_segment() && self.is_first_frame();
        let whole = self.kind == 0 && self.is_last_segment();
        let alone = whole || self.kind == 1;
        first && alone
    }

    /// Whether it may come after this one in its assembly.
    fn follows(self, last: FrameHeader) -> bool
        ensures { result ≡ in_place (Some last) self }
    {
        if last.is_last_frame() {
            let begins = self.is_first_frame() && !self.is_first_segment();
            let later = last.kind < self.kind;
            begins && later
        } else {
            let same = self.kind == last.kind && self.flags & 12 == last.flags & 12;
            !self.is_first_frame() && same
        }
    }

    /// Whether it may come after the last one of the open assembly of its channel and track, if there is one.
    pub(crate) fn is_in_place(self, last: Option<FrameHeader>) -> bool
        ensures { result ≡ in_place last self }
    {
        match last {
            None => self.begins(),
            Some(last) => self.follows(last),
        }
    }

    /// What is wrong with it by itself: its place, size, format, type, track and channel, in this order.
    pub(crate) fn form_fault(self, at: u64, max_frame: u16) -> Option<Why>
        ensures { result ≡ form_fault max_frame at self }
    {
        if at >= FAR_PLACE {
            return Some(Why::TooFar);
        }
        if self.size < HEADER || self.size > max_frame {
            return Some(Why::BadSize);
        }
        if self.flags & 0xc0 != 0 {
            return Some(Why::BadFlags);
        }
        if self.kind > 3 {
            return Some(Why::BadType);
        }
        let track = if self.kind == 0 { 0 } else { 1 };
        if self.track != track {
            return Some(Why::BadTrack);
        }
        if self.channel > LAST_CHANNEL {
            return Some(Why::TooManyChannels);
        }
        None
    }
}

/// What is wrong with a payload beside those of its assembly, and of all unfinished ones.
pub(crate) fn size_fault(payload: u32, assembled: u32, unfinished: u32) -> Option<Why>
    ensures { result ≡ size_fault payload assembled unfinished }
{
    if assembled.saturating_add(payload) > MOST_ASSEMBLED {
        return Some(Why::TooLarge);
    }
    if unfinished.saturating_add(payload) > MOST_OPEN {
        return Some(Why::TooMuchOpen);
    }
    None
}
