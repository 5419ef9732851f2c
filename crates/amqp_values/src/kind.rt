//! The type codes.
ghost use Rattle.std.specs.Prelude.{◌≡◌};
ghost use Rattle.amqp_values.specs.Codes.{kind, is_known, is_array_code};

use octet_reading::SizeWidth;

/// What a container is made of.
#[derive(Clone, Copy, Debug, PartialEq, Eq)]
pub(crate) enum Container {
    Map,
    List,
    Array,
}

/// How the value of a type code is spelled.
#[derive(Clone, Copy, Debug, PartialEq, Eq)]
pub(crate) enum Kind {
    /// So many octets.
    Fixed { size: usize },
    /// One octet, 0 or 1.
    Boolean,
    /// A size, and a text in UTF-8.
    Text8,
    Text16,
    /// A size, and octets.
    Bin { width: SizeWidth },
    /// A size, and values.
    Container { of: Container },
    /// A size, and octets.
    Struct32,
    /// No octets.
    Void,
    Bit,
}

/// The kind of a type code, where it is one of the 42.
#[tactic(auto, unfolding(crate::specs::Codes::kind))]
pub(crate) fn kind_of(code: u8) -> Option<Kind>
    ensures { result ≡ kind code }
{
    match code {
        0x00 | 0x01 | 0x02 | 0x04 => Some(Kind::Fixed { size: 1 }),
        0x08 => Some(Kind::Boolean),
        0x10 | 0x11 | 0x12 => Some(Kind::Fixed { size: 2 }),
        0x20 | 0x21 | 0x22 | 0x23 | 0x27 => Some(Kind::Fixed { size: 4 }),
        0x30 | 0x31 | 0x32 | 0x33 | 0x38 => Some(Kind::Fixed { size: 8 }),
        0x40 | 0x48 => Some(Kind::Fixed { size: 16 }),
        0x50 => Some(Kind::Fixed { size: 32 }),
        0x60 => Some(Kind::Fixed { size: 64 }),
        0x70 => Some(Kind::Fixed { size: 128 }),
        0x80 | 0x84 | 0x86 => Some(Kind::Bin {
            width: SizeWidth::One,
        }),
        0x85 => Some(Kind::Text8),
        0x90 | 0x94 | 0x96 => Some(Kind::Bin {
            width: SizeWidth::Two,
        }),
        0x95 => Some(Kind::Text16),
        0xa0 => Some(Kind::Bin {
            width: SizeWidth::Four,
        }),
        0xa8 => Some(Kind::Container { of: Container::Map }),
        0xa9 => Some(Kind::Container {
            of: Container::List,
        }),
        0xaa => Some(Kind::Container {
            of: Container::Array,
        }),
        0xab => Some(Kind::Struct32),
        0xc0 | 0xc8 => Some(Kind::Fixed { size: 5 }),
        0xd0 | 0xd8 => Some(Kind::Fixed { size: 9 }),
        0xf0 => Some(Kind::Void),
        0xf1 => Some(Kind::Bit),
        _ => None,
    }
}

/// Whether it is a type code.
pub(crate) fn is_known(code: u8) -> bool
    ensures { result ≡ is_known code }
{
    kind_of(code).is_some()
}

/// Whether the items of an array may have this code: a type code whose values have octets.
pub(crate) fn is_array_code(code: u8) -> bool
    ensures { result ≡ is_array_code code }
{
    is_known(code) && code < 0xf0
}
