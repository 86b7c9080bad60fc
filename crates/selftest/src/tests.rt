use b63::B63;
use hash::{LONGEST_TEXT, hash};
use m61::M61;
use refusal::Refusal;

const CHUNK: usize = 7_168;

const M61_ORDER: u64 = 0x1fff_ffff_ffff_ffff;

#[test]
fn worked_examples(rt: HostRuntime) {
    assert!(rt; super::self_test());
}

// Each chunk takes its own subkey: zeros add nothing, and the one byte of the second chunk is multiplied by 2.
#[test]
fn second_chunk_takes_the_second_subkey(rt: HostRuntime) {
    let mut text = [0; CHUNK + 1];
    text[CHUNK] = 1;
    assert_eq!(rt; hash::<M61>(&[5, 2], &text), Ok(7_171));
    assert_eq!(rt; hash::<B63>(&[5, 2], &text), Ok(2 ^ 7_169));
}

#[test]
fn a_chunk_without_a_subkey_is_refused(rt: HostRuntime) {
    assert_eq!(rt;
        hash::<M61>(&[5], &[0; CHUNK + 1]),
        Err(Refusal::RingTooShort)
    );
    assert_eq!(rt; hash::<M61>(&[5], &[0; CHUNK]), Ok(7_168));
}

// The block times the subkey is made to be the order less the length: 1 * (N - 1) and 1, and 3 * (N - 1) and 3.
#[test]
fn a_sum_that_lands_on_the_order_is_zero(rt: HostRuntime) {
    assert_eq!(rt; hash::<M61>(&[M61_ORDER - 1], &[1]), Ok(0));
    assert_eq!(rt; hash::<M61>(&[M61_ORDER - 1], &[3, 0, 0]), Ok(0));
}

#[test]
fn refusals_come_in_order(rt: HostRuntime) {
    let long = [0; LONGEST_TEXT + 1];
    assert_eq!(rt; hash::<M61>(&[M61_ORDER], &long), Err(Refusal::TextTooLong));
    assert_eq!(rt;
        hash::<M61>(&[M61_ORDER], &[0; CHUNK + 1]),
        Err(Refusal::RingTooShort)
    );
    assert_eq!(rt;
        hash::<M61>(&[M61_ORDER], &[1]),
        Err(Refusal::SubkeyTooLarge)
    );
}

// A place that no chunk uses is looked at all the same.
#[test]
fn an_unused_subkey_can_be_too_large(rt: HostRuntime) {
    assert_eq!(rt;
        hash::<M61>(&[2, M61_ORDER], &[1]),
        Err(Refusal::SubkeyTooLarge)
    );
    assert_eq!(rt;
        hash::<B63>(&[2, 1 << 63], &[1]),
        Err(Refusal::SubkeyTooLarge)
    );
    assert_eq!(rt; hash::<B63>(&[2, M61_ORDER], &[1]), Ok(3));
}

#[test]
fn the_longest_text_is_taken(rt: HostRuntime) {
    assert_eq!(rt; hash::<M61>(&[1; 8], &[0; LONGEST_TEXT]), Ok(57_344));
}
