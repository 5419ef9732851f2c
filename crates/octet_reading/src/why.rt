//! The reasons for which octets are refused.
ghost use Rattle.std.specs.Prelude.{◌≡◌};
ghost use Rattle.octet_reading.specs.Words.{word_of};

/// Why octets were refused, or a connection closed. Its word is what `replay` and connection.close say.
#[derive(Clone, Copy, Debug, PartialEq, Eq)]
pub enum Why {
    // Values (AMQP 0-10, "types").
    /// The octets end inside an item, or before one that must come.
    Short,
    /// A type code that isn't listed.
    UnknownCode,
    /// A text isn't UTF-8.
    BadText,
    /// A boolean is above 1.
    BadBoolean,
    /// Octets are left after the last item of a container or struct.
    SizeDiffers,
    /// A container ends before it has as many items as its count says.
    CountDiffers,
    /// A key stood before in this map.
    RepeatedKey,
    /// A container stands inside 16 others.
    TooDeep,

    // Packed structs and units.
    /// A flag beyond the fields is set.
    ReservedFlag,
    /// Ranges whose size is no multiple of 8, or one as wide as half of the numbers.
    BadRanges,
    /// A struct of another class or code, or one without room for them.
    BadStruct,
    /// A session header that is neither `01 00` nor `01 01`.
    BadSessionHeader,
    /// Octets after the arguments.
    TrailingOctets,
    /// A class that has no controls, or no commands.
    UnknownClass,
    /// A control that its class doesn't have.
    UnknownControl,
    /// A header or a body after a command that has none.
    ContentNotAllowed,

    // Frames.
    /// A frame at place 2^62 or beyond.
    TooFar,
    /// A size below 12, or above the largest frame.
    BadSize,
    /// A format bit, or a frame in the wrong place of its assembly.
    BadFlags,
    /// A segment type above 3.
    BadType,
    /// A track above 1, or one that doesn't fit the type.
    BadTrack,
    /// A channel above 63.
    TooManyChannels,
    /// An assembly above 16,777,216 octets.
    TooLarge,
    /// Unfinished assemblies above 33,554,432 octets.
    TooMuchOpen,

    // Connections.
    /// Another protocol header than `414d51500101000a`.
    BadHeader,
    /// A mechanism or response that isn't taken.
    Mechanism,
    /// A connection.tune-ok outside of what was offered.
    TuneRange,
    /// Another virtual host.
    VirtualHost,
    /// A control out of its turn.
    OutOfOrder,
    /// Nothing was heard for twice the heartbeat.
    Silent,
}

impl Why {
    /// The reason's word.
    pub fn word(self) -> &'static str
        ensures { result.now ≡ word_of self }
    {
        match self {
            Why::Short => "Short",
            Why::UnknownCode => "UnknownCode",
            Why::BadText => "BadText",
            Why::BadBoolean => "BadBoolean",
            Why::SizeDiffers => "SizeDiffers",
            Why::CountDiffers => "CountDiffers",
            Why::RepeatedKey => "RepeatedKey",
            Why::TooDeep => "TooDeep",
            Why::ReservedFlag => "ReservedFlag",
            Why::BadRanges => "BadRanges",
            Why::BadStruct => "BadStruct",
            Why::BadSessionHeader => "BadSessionHeader",
            Why::TrailingOctets => "TrailingOctets",
            Why::UnknownClass => "UnknownClass",
            Why::UnknownControl => "UnknownControl",
            Why::ContentNotAllowed => "ContentNotAllowed",
            Why::TooFar => "TooFar",
            Why::BadSize => "BadSize",
            Why::BadFlags => "BadFlags",
            Why::BadType => "BadType",
            Why::BadTrack => "BadTrack",
            Why::TooManyChannels => "TooManyChannels",
            Why::TooLarge => "TooLarge",
            Why::TooMuchOpen => "TooMuchOpen",
            Why::BadHeader => "BadHeader",
            Why::Mechanism => "Mechanism",
            Why::TuneRange => "TuneRange",
            Why::VirtualHost => "VirtualHost",
            Why::OutOfOrder => "OutOfOrder",
            Why::Silent => "Silent",
        }
    }
}
