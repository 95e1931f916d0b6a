use stock::kind::{AccessKind, UnknownKind};

#[test]
fn numbers(rt: HostRuntime) {
    for number in 0..4u8 {
        let kind = AccessKind::try_from(number);
        assert!(rt; kind.map(u8::from) == Ok(number));
        assert!(rt; kind.map(AccessKind::is_writing) == Ok(number > 0));
    }
    for number in [4, 255] {
        assert!(rt; AccessKind::try_from(number) == Err(UnknownKind(number)));
    }
}
