// The input, in whole parts: each function answers nothing where the input ends before its part does.

// Fills bytes from the input.
pub(crate) fn fill(rt: &HostRuntime, bytes: &mut [u8]) -> Option<()> {
    let mut input = rt.stdin();
    let wanted = bytes.len();
    if streams::fill(&mut input, bytes) < wanted {
        return None;
    }
    Some(())
}

// The next byte of the input.
pub(crate) fn byte(rt: &HostRuntime) -> Option<u8> {
    let mut bytes = [0u8; 1];
    fill(rt, &mut bytes)?;
    Some(bytes[0])
}

// The next number of the input.
pub(crate) fn number(rt: &HostRuntime) -> Option<usize> {
    let mut bytes = [0u8; 4];
    fill(rt, &mut bytes)?;
    Some(u32::from_le_bytes(bytes) as usize)
}
