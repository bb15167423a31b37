// The worked frames of docs/FORMATS.md, for three stations of which one may be faulty, and one batch.
use super::decode::Limits;
use super::encode::encode;
use super::line::write_line;
use std::test::Fail;

const LIMITS: Limits = Limits {
    stations: 3,
    faults: 1,
    batches: 1,
};

fn fault_of(line: &[u8]) -> Option<(u8, u8, usize)> {
    let x = LIMITS.decode_line(line).err()?;
    Some((x.refusal.number(), x.layer.number(), x.place))
}

#[test]
fn decision_goes_both_ways(rt: HostRuntime) -> Result<(), Fail> {
    let line =
        b"0202000100000200000012670000005d00000190000007445b9fc8603e94884701ea5f696f783f454a025ba2c861be948847";
    let frame = LIMITS.decode_line(line)?;
    assert_eq!(rt; frame.sender, 2);
    assert_eq!(rt; frame.entry.figure, 1860);
    assert_eq!(rt; frame.tag, 0x5b9f_c860_3e94_8847);
    let mut written = [0u8; 100];
    assert_eq!(rt; write_line(encode(&frame).as_slice(), &mut written)?, 100);
    assert!(rt; written == *line);
    Ok(())
}

#[test]
fn refusals_show_their_place(rt: HostRuntime) {
    let odd = b"010";
    assert_eq!(rt; fault_of(odd), Some((28, 1, 3)));
    let upper = b"01A1";
    assert_eq!(rt; fault_of(upper), Some((28, 1, 2)));
    let entry_in_reselect = b"0301000100010000000012670000005d0000019000000744ea5f696f783f454a";
    assert_eq!(rt; fault_of(entry_in_reselect), Some((16, 2, 8)));
    let same_station =
        b"0202000100000200000012670000005d00000190000007445b9fc8603e94884701ea5f696f783f454a015ba2c861be948847";
    assert_eq!(rt; fault_of(same_station), Some((16, 2, 41)));
}
