//! Pieces of a text. The blocks of the text are parted by empty lines; a piece is one that begins with `@ NAME`.

/// Whether the block is a piece.
pub fn is_piece(block: &str) -> bool {
    block.starts_with("@ ")
}

/// The lines of the text's piece with this name, behind the name; none, if the text has no such piece.
pub fn piece<'a>(text: &'a str, name: &str) -> Option<&'a str> {
    for block in text.split("\n\n") {
        if let Some(lines) = lines_named(block, name) {
            return Some(lines);
        }
    }
    None
}

/// The lines of the block, if it is the piece with this name.
fn lines_named<'a>(block: &'a str, name: &str) -> Option<&'a str> {
    let (head, lines) = block.split_once('\n')?;
    if head.strip_prefix("@ ")? == name {
        Some(lines)
    } else {
        None
    }
}
