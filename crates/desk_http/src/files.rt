//! The page's files, by their names.

ghost use Rattle.std.specs.Prelude.{◌≡◌, map, option_map};
ghost use Rattle.std.specs.List.{list_all};
ghost use Rattle.desk_http.specs.Files.{
  is_name_octet,
  has_ending,
  named_kind,
  name_at,
  kind_at,
  content_of,
  named_if,
  folder_name,
};

/// The kinds of files that the page has beside itself.
#[derive(Clone, Copy)]
pub enum FileKind {
    /// A part of its script.
    Script,
    /// A style sheet.
    Style,
}

/// A file of the page.
#[derive(Clone, Copy)]
pub struct AssetFile {
    /// Its name, such as `page.css`.
    pub name: &'static str,
    /// Its octets.
    pub content: &'static [u8],
}

/// Whether each octet is a small letter, a digit, `-` or `_`.
fn is_stem(name: &[u8]) -> bool
    ensures { result ≡ list_all is_name_octet name.now }
{
    name.iter().all(|octet| {
        (97 <= *octet && *octet <= 122)
            || (48 <= *octet && *octet <= 57)
            || *octet == 45
            || *octet == 95
    })
}

/// Whether a name has this ending, and in front of it nothing but such octets.
fn has_ending(name: &[u8], ending: &[u8]) -> bool
    ensures { result ≡ has_ending ending.now name.now }
{
    if ending.len() >= name.len() {
        return false;
    }
    let count = name.len() - ending.len();
    &name[count..] == ending && is_stem(&name[..count])
}

/// What kind of file has this name.
fn named_kind(name: &[u8]) -> Option<FileKind>
    ensures { result ≡ named_kind name.now }
{
    if has_ending(name, b".js") {
        Some(FileKind::Script)
    } else if has_ending(name, b".css") {
        Some(FileKind::Style)
    } else {
        None
    }
}

/// The path without the slash that it begins with, or nothing.
pub(crate) fn name_at(path: &[u8]) -> &[u8]
    ensures { result.now ≡ name_at path.now }
{
    match path {
        [b'/', name @ ..] => name,
        _ => &[],
    }
}

/// What kind of file is at a path.
pub(crate) fn kind_at(path: &[u8]) -> Option<FileKind>
    ensures { result ≡ kind_at path.now }
{
    named_kind(name_at(path))
}

/// The content of the first of these files with that name.
pub(crate) fn content_of(files: &[AssetFile], name: &[u8]) -> Option<&'static [u8]>
    ensures { option_map (λ x. x.now) result ≡ content_of name.now files.now }
{
    for file in files {
        if file.name.as_bytes() == name {
            return Some(file.content);
        }
    }
    None
}

/// A name, if it is that of a file of the page.
fn named_if(kind: Option<FileKind>, name: &[u8]) -> Option<&[u8]>
    ensures { option_map (λ x. x.now) result ≡ named_if kind name.now }
{
    match kind {
        Some(_) => Some(name),
        None => None,
    }
}

/// Which file of a folder is served at a path: `page.html` at `/`, and elsewhere a file of a kind that the page has. No
/// such name has a slash or two dots.
pub fn folder_name(path: &[u8]) -> Option<&[u8]>
    ensures { option_map (λ x. x.now) result ≡ folder_name path.now }
{
    if path == b"/".as_slice() {
        Some(b"page.html")
    } else {
        named_if(kind_at(path), name_at(path))
    }
}
