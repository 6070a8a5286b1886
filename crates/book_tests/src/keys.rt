// Keys, put together and taken apart.
use book::key::KeyParts;

#[test]
fn there_and_back(rt: HostRuntime) {
    for (office, before, key) in [
        (0, 0, 0),
        (0, 65_535, 65_535),
        (1, 0, 65_536),
        (2, 1, 131_073),
        (15, 4_095, 987_135),
        (65_535, 65_535, 4_294_967_295),
    ] {
        let parts = KeyParts { office, before };
        assert_eq!(rt; u32::from(parts), key);
        assert_eq!(rt; KeyParts::from(key), parts);
    }
}
