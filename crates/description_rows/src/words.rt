use bits_word::Word;

#[test]
fn a_place_is_read_and_written(rt: HostRuntime) {
    assert!(rt; 0xb6u8.get(2, 3) == 5);
    assert!(rt; 0xffu8.put(2, 3, 0x0a) == 0xeb);
    assert!(rt; 0b1111u8.start(0b0011, 0b0001) == 0b1101);
    assert!(rt; u16::mask(4, 8) == 0x0ff0);
    assert!(rt; <u32 as Word>::cut(0x1_2345_6789) == 0x2345_6789);
    let word = 0x0123_4567_89ab_cdefu64;
    assert!(rt; word.get(0, 64) == word);
    assert!(rt; word.put(0, 64, u64::MAX) == u64::MAX);
    assert!(rt; u64::mask(0, 64) == u64::MAX);
}
