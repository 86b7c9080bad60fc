use crate::{Draft, Read, Sheet, read_sheet};
use refusal::Refusal;
use std::test::Fail;

// Grave 7, draw 258, seal 3, the text AB, and two bytes behind the record.
const ON_THE_CHIP: [u8; 28] = [
    22, 0, 0, 0, 1, 0, 7, 0, 2, 1, 0, 0, 0, 0, 0, 0, 3, 0, 0, 0, 0, 0, 0, 0, 65, 66, 9, 9,
];

const DRAFT: Draft<'static> = Draft {
    grave: 7,
    draw: 258,
    seal: 3,
    text: &[65, 66],
};

#[test]
fn written_byte_for_byte(rt: HostRuntime) {
    let mut buffer = [9; 28];
    assert_eq!(rt; DRAFT.write(&mut buffer), Ok(26));
    assert_eq!(rt; buffer, ON_THE_CHIP);
}

#[test]
fn read_part_by_part(rt: HostRuntime) -> Result<(), Fail> {
    match read_sheet(&ON_THE_CHIP) {
        Err(_) => {
            assert!(rt; false);
            Ok(())
        },
        Ok(Read { sheet, rest }) => {
            let Sheet {
                grave,
                draw,
                seal,
                text,
            } = sheet;
            assert_eq!(rt; (grave, draw, seal), (7, 258, 3));
            assert_eq!(rt; text, [65, 66].as_slice());
            assert_eq!(rt; rest, [9, 9].as_slice());
            Ok(())
        }
    }
}

#[test]
fn a_short_buffer_is_left(rt: HostRuntime) {
    let mut buffer = [9; 25];
    assert_eq!(rt; DRAFT.write(&mut buffer), Err(Refusal::BufferTooShort));
    assert_eq!(rt; buffer, [9; 25]);
}
