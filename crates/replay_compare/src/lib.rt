// The replay's answers for a program of the host, which compares them with the oracle's by the million.
// Answers a request of oracle/FORMAT.md into the first bytes of `out`, and says how many; the largest number if the
// request is not answered. `bytes` and `scratch` are room to work in.
#![tactic(auto)]

#[unsafe(no_mangle)]
pub extern "C" fn dimewagon_answer(
    request: &[u8],
    bytes: &mut [u8],
    scratch: &mut [u8],
    out: &mut [u8],
) -> usize {
    let reply = replay_answers::answer(request, bytes, scratch, out);
    if reply.good {
        return reply.at;
    }
    0xFFFF_FFFF_FFFF_FFFF
}
