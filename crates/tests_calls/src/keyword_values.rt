//! What `&RTNTYPE` holds.

use keywords::{KeyValue, Keywords};
use model::{KeyId, ReturnKind};
use std::test::Fail;

// Whether it holds this text.
fn is_newest(keywords: &Keywords, want: &str) -> bool {
    match keywords.get(KeyId::RtnType) {
        KeyValue::Integer(_) => false,
        KeyValue::Text(text) => text.as_slice() == want.as_bytes(),
    }
}

fn returns(keywords: &mut Keywords) -> bool {
    for (kind, want) in [
        (ReturnKind::Return, "RETURN"),
        (ReturnKind::FReturn, "FRETURN"),
        (ReturnKind::NReturn, "NRETURN"),
    ] {
        keywords.returned(kind);
        if !is_newest(keywords, want) {
            return false;
        }
    }
    true
}

#[test]
fn newest_return(rt: HostRuntime) -> Result<(), Fail> {
    let mut keywords = Keywords::new(rt.alloc())?;
    assert!(rt; returns(&mut keywords));
    Ok(())
}
