// Neighbour discovery (RFC 4861): options, router advertisements and router solicitations.
#![tactic(auto)]

ghost use Rattle.std.specs.Prelude.{◌≡◌, ◌+◌, ◌≤◌, length, take, drop};

pub mod icmpv6;
pub mod ndisc;
pub mod ndiscoption;

// The bytes at place `i`.
fn bytes_at<const N: usize>(s: &[u8], i: usize) -> [u8; N]
    requires { i + N ≤ length s.now }
    ensures { result ≡ take N (drop i s.now) }
{
    *s[i..].first_chunk().unwrap()
}
