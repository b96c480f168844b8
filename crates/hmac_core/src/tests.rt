// Published values, which say that the definitions are the standard's.
use crate::{Hash, Mac};
use std::test::Fail;

#[test]
fn gives_published_values(rt: HostRuntime) -> Result<(), Fail> {
    // RFC 4231, test case 1.
    let mut mac = Mac::new(Hash::Sha256, &[0x0b; 20]);
    mac.update(b"Hi ");
    mac.update(b"There");
    assert_eq!(rt;
        hex::encode(rt.alloc(), mac.finish().as_slice())?.as_str(),
        "b0344c61d8db38535ca8afceaf0bf12b881dc200c9833da726e9376c2e32cff7"
    );
    // A key of 129 bytes, one more than a block. Computed by another implementation.
    let mut key = [0u8; 129];
    for i in 0..129u8 {
        key[i as usize] = i;
    }
    let want =
        "767a0a8da500b0f4b08ac06b7535b29cb7f4449beee8e8094e8cb6e8fa7c51049f9964e868da0504100c0ffb79a8f6542d8ed75b096472bd667ece4522d8cd3f";
    let keyed = Mac::new(Hash::Sha512, &key);
    let mut copied = keyed.copy();
    copied.update(b"abc");
    assert_eq!(rt;
        hex::encode(rt.alloc(), keyed.finish_with(b"abc").as_slice())?.as_str(),
        want
    );
    assert_eq!(rt;
        hex::encode(rt.alloc(), copied.finish().as_slice())?.as_str(),
        want
    );
    Ok(())
}
