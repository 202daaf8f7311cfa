//! The pages of the cases.

use desk_http::{AssetFile, Assets, Router, Site};
use std::alloc::{AllocError, Global};
use std::net::SocketAddr;

/// The files that the page names.
const FILES: [AssetFile; 2] = [
    AssetFile {
        name: "page.js",
        content: b"script",
    },
    AssetFile {
        name: "page.css",
        content: b"style",
    },
];

fn assets(alloc: Global) -> Result<Assets, AllocError> {
    Ok(Assets {
        html_before: b"<before ",
        html_after: b" after>",
        files: Vec::from_slice(alloc, &FILES)?,
    })
}

/// The page at this port.
pub fn router_at(alloc: Global, port: u16) -> Result<Router, AllocError> {
    let address = SocketAddr::from(([127, 0, 0, 1], port));
    Ok(Router {
        alloc,
        site: Site::new(alloc, address, Vec::from_slice(alloc, b"secret")?)?,
        assets: assets(alloc)?,
        person: Vec::new(alloc),
        seen: None,
        line: None,
    })
}

/// The page whose files are those of a folder.
pub fn folder_router(alloc: Global) -> Result<Router, AllocError> {
    let mut router = router_at(alloc, 7080)?;
    router.site.has_folder = true;
    Ok(router)
}
