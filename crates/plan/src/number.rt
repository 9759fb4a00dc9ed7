// Numbers in a plan's bytes, the least significant byte first.
ghost use Rattle.std.specs.Prelude.{◌≡◌, ◌+◌, ◌≤◌, length};
ghost use Rattle.plan.specs.Number.{number_at};

#[tactic(auto, using(crate::proofs::laws::NumberLaws::number_one))]
pub(crate) fn u8_at(bytes: &[u8], at: usize) -> u8
    requires { at + 1 ≤ length bytes.now }
    ensures { result ≡ number_at 1 bytes.now at }
{
    bytes[at]
}

#[tactic(auto, using(crate::proofs::laws::NumberLaws::number_two))]
pub(crate) fn u16_at(bytes: &[u8], at: usize) -> u16
    requires { at + 2 ≤ length bytes.now }
    ensures { result ≡ number_at 2 bytes.now at }
{
    u16::from_le_bytes([bytes[at], bytes[at + 1]])
}

#[tactic(auto, using(crate::proofs::laws::NumberLaws::number_four))]
pub(crate) fn u32_at(bytes: &[u8], at: usize) -> u32
    requires { at + 4 ≤ length bytes.now }
    ensures { result ≡ number_at 4 bytes.now at }
{
    u32::from_le_bytes([bytes[at], bytes[at + 1], bytes[at + 2], bytes[at + 3]])
}
