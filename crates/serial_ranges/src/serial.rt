//! The number that a serial stands for.
ghost use Rattle.std.specs.Prelude.{◌≡◌, ◌^◌, ◌<◌};
ghost use Rattle.serial_ranges.specs.Serial.{unwrapped, unwrapped_range};

/// How many serials there are, and half of them.
const CIRCLE: u64 = 4_294_967_296;

const HALF: u32 = 2_147_483_648;

/// The number nearest to the reference that equals the serial modulo 2^32; at distance 2^31 the one before it.
///
/// None where that number would be negative. Takes no memory.
pub fn unwrap(reference: u64, serial: u32) -> Option<u64>
    requires { reference < 2 ^ 63 }
    ensures { result ≡ unwrapped reference serial }
{
    let ahead = serial.wrapping_sub((reference % CIRCLE) as u32);
    if ahead < HALF {
        return Some(reference + u64::from(ahead));
    }
    reference.checked_sub(CIRCLE - u64::from(ahead))
}

/// The numbers that a range of serials stands for, both included: from the number of its lower end on, as many as the
/// range has serials. Negative ones fall away; none where all of them are. Takes no memory.
pub fn unwrap_range(reference: u64, lower: u32, upper: u32) -> Option<(u64, u64)>
    requires { reference < 2 ^ 63 }
    ensures { result ≡ unwrapped_range reference lower upper }
{
    let ahead = lower.wrapping_sub((reference % CIRCLE) as u32);
    // All numbers 2^32 further on, so that none is negative.
    let shift = if ahead < HALF { CIRCLE } else { 0 };
    let start = reference + u64::from(ahead) + shift;
    let end = start + u64::from(upper.wrapping_sub(lower));
    if end < CIRCLE {
        return None;
    }
    Some((start.max(CIRCLE) - CIRCLE, end - CIRCLE))
}

#[cfg(test)]
mod tests {
    use super::*;
    use std::test::Fail;

    #[test]
    fn serials_unwrap_at_the_edges(rt: HostRuntime) -> Result<(), Fail> {
        assert_eq!(rt; unwrap(4_294_967_295, 0xffff_ffff), Some(4_294_967_295));
        assert_eq!(rt; unwrap(4_294_967_296, 0), Some(4_294_967_296));
        assert_eq!(rt; unwrap(2_147_483_648, 0), Some(0));
        assert_eq!(rt; unwrap(5, 0xffff_ffff), None);
        assert_eq!(rt; unwrap(0, 0x8000_0000), None);
        Ok(())
    }

    #[test]
    fn a_range_leaves_out_negative_numbers(rt: HostRuntime) -> Result<(), Fail> {
        assert!(rt; unwrap_range(3, 0, 0x7fff_ffff) == Some((0, 2_147_483_647)));
        assert!(rt; unwrap_range(0, 0xffff_ffff, 1) == Some((0, 1)));
        assert!(rt; unwrap_range(0, 0xffff_fffe, 0xffff_ffff) == None);
        assert!(rt;
            unwrap_range(4_294_967_296, 0xffff_ffff, 1) == Some((4_294_967_295, 4_294_967_297))
        );
        assert!(rt; unwrap_range(7, 7, 6) == Some((7, 4_294_967_302)));
        Ok(())
    }
}
