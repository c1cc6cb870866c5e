//! The policy of a page lets one script run: the page's own.
use crate::given::page_of;
use crate::market::market;
use crate::reading::{between, compare};
use base64::engine::general_purpose::STANDARD;
use sha2::{Digest, Sha256};
use std::test::Fail;

#[test]
fn the_policy_names_the_script(rt: HostRuntime) -> Result<(), Fail> {
    let alloc = rt.alloc();
    let page = page_of(alloc, market(&[]))?;
    let script = between(page.as_str(), "<script>", "</script>")?;
    let digest = Sha256::digest(script.as_bytes());
    let text = STANDARD.encode(alloc, digest.as_slice())?;
    compare(
        alloc,
        between(page.as_str(), "script-src 'sha256-", "'")?,
        text.as_str(),
    )
}
