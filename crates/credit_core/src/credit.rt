//! Credit of a subscription: how many messages, or octets of bodies, may still be sent.
ghost use Rattle.std.specs.Prelude.{◌≡◌, ◌↔◌, IsTrue};
ghost use Rattle.credit_core.specs.Credit.{Suffices, suffices, spent, added};

/// Credit in messages or in octets (AMQP 0-10, "message.flow"). The unit is the caller's.
#[derive(Clone, Copy, Debug, PartialEq, Eq)]
pub enum Credit {
    Left(u64),
    Unlimited,
}

/// From this sum on credit is unlimited: the standard's value for it, which is the greatest u32.
const UNLIMITED: u64 = 4_294_967_295;

impl Credit {
    /// Whether a delivery of this cost may be made.
    pub fn suffices(self, cost: u64) -> bool
        ensures { result ≡ suffices self cost }
    {
        match self {
            Credit::Left(left) => cost <= left,
            Credit::Unlimited => true,
        }
    }

    /// What a delivery of this cost leaves.
    pub fn spent(self, cost: u64) -> Credit
        requires { Suffices self cost }
        ensures { result ≡ spent self cost }
    {
        match self {
            Credit::Left(left) => Credit::Left(left - cost),
            Credit::Unlimited => Credit::Unlimited,
        }
    }

    /// The credit with so much more; a sum of 4294967295 or more is unlimited.
    pub fn added(self, more: u64) -> Credit
        ensures { result ≡ added self more }
    {
        match self {
            Credit::Left(left) => {
                let sum = left.saturating_add(more);
                if sum < UNLIMITED {
                    Credit::Left(sum)
                } else {
                    Credit::Unlimited
                }
            }
            Credit::Unlimited => Credit::Unlimited,
        }
    }
}
