//! Examples of the store at its limits: each table filled to its end and one past it, forgotten, and filled again.

#![tactic(auto)]

#[cfg(test)]
mod tests {
    use grammar::{ImportVis, Rule, Scalar};
    use std::test::Fail;
    use store::{Full, Item, Key, Record, Shape, Span, Stack, Store, Value};
    use token::Place;

    const TEXT: Span = Span { from: 0, to: 1 };

    const PLACE: Place = Place { line: 1, column: 1 };

    const MESSAGE: Item = Item::Message(TEXT, PLACE);

    const FIELD: Item = Item::Field {
        label: Some(Rule::Repeated),
        name: TEXT,
        number: 1,
        place: PLACE,
    };

    const TYPE: Item = Item::Type(Shape::Scalar(Scalar::Sint64));

    const ENUM: Item = Item::Enum(TEXT, PLACE);

    // An item of each kind.
    static ITEMS: [Item; 18] = [
        Item::Import(ImportVis::Weak, TEXT),
        Item::Setting,
        Item::DirectPart(TEXT),
        Item::ExtensionPart(TEXT),
        Item::Constant(Value::Minus(0)),
        Item::Name(Key::AnyType(TEXT, TEXT)),
        Item::ReservedRange(1, 2),
        Item::ExtensionRange(1, 536870911),
        Item::ReservedName(TEXT),
        MESSAGE,
        FIELD,
        TYPE,
        Item::OneOf(TEXT, PLACE),
        Item::Extension(TEXT),
        ENUM,
        Item::EnumValue(TEXT, -1),
        Item::Service(TEXT, PLACE),
        Item::Method {
            name: TEXT,
            from_client: true,
            input: TEXT,
            from_server: false,
            output: TEXT,
        },
    ];

    fn fill(store: &mut Store, item: Item, records: usize) {
        for _ in 0..records {
            store.put(item);
        }
    }

    #[test]
    fn records_to_the_end(rt: HostRuntime) -> Result<(), Fail> {
        let mut store = Store::new();
        for item in ITEMS {
            store.begin();
            fill(&mut store, item, 1024);
            assert!(rt; store.count() == 1024);
            let last = store.record(1023).ok_or("the last record is stored")?;
            assert!(rt; last.item == item && last.next.is_none());
            store.put(item);
            assert!(rt; store.count() == 1025 && store.record(1024).is_none());
            assert!(rt; store.record(1023) == Some(last));
            store.truncate(0, 0);
            fill(&mut store, item, 3);
            assert!(rt; store.count() == 3 && store.record(3).is_none());
            store.truncate(0, 0);
        }
        Ok(())
    }

    #[test]
    fn text_to_the_end(rt: HostRuntime) {
        let mut store = Store::new();
        store.begin();
        for _ in 0..8191 {
            store.push(b'a');
        }
        store.push(b'z');
        assert!(rt; store.used() == 8192 && store.byte(8191) == b'z');
        store.push(b'b');
        assert!(rt; store.used() == 8193 && store.byte(8191) == b'z');
        let last = Span {
            from: 8190,
            to: 8192,
        };
        assert!(rt; store.text(last) == b"az".as_slice());
        let past = Span {
            from: 8191,
            to: 8193,
        };
        assert!(rt; store.text(past).is_empty());
        store.truncate(0, 0);
        store.push(b'c');
        assert!(rt; store.used() == 1 && store.byte(0) == b'c');
    }

    // A message with a field of a type and an option, and an enum beside it.
    #[test]
    fn links(rt: HostRuntime) {
        let mut store = Store::default();
        store.begin();
        store.open(MESSAGE);
        store.open(Item::Setting);
        store.put(TYPE);
        store.fill(FIELD);
        store.put(Item::Setting);
        store.close();
        store.close();
        store.put(ENUM);
        assert!(rt; store.count() == 5);
        let message = Record {
            item: MESSAGE,
            parent: None,
            first: Some(1),
            next: Some(4),
        };
        assert!(rt; store.record(0) == Some(message));
        let field = Record {
            item: FIELD,
            parent: Some(0),
            first: Some(2),
            next: None,
        };
        assert!(rt; store.record(1) == Some(field));
        let kind = Record {
            item: TYPE,
            parent: Some(1),
            first: None,
            next: Some(3),
        };
        assert!(rt; store.record(2) == Some(kind));
        let other = Record {
            item: ENUM,
            parent: None,
            first: None,
            next: None,
        };
        assert!(rt; store.record(4) == Some(other));
    }

    #[test]
    fn stack(rt: HostRuntime) {
        let mut slots = [0u8; 2];
        let mut stack = Stack::new(&mut slots);
        assert!(rt; stack.is_empty() && stack.pop().is_none() && stack.top().is_none());
        assert!(rt;
            stack.push(1) == Ok(()) && stack.push(2) == Ok(()) && stack.push(3) == Err(Full)
        );
        assert!(rt; stack.set_top(4) && stack.len() == 2 && !stack.is_empty());
        assert!(rt; stack.pop() == Some(4));
        assert!(rt; stack.top() == Some(1) && stack.pop() == Some(1));
        assert!(rt; stack.pop().is_none() && !stack.set_top(5));
    }
}
