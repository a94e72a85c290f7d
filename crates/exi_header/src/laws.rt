//! What holds of headers. Each law is a function that does nothing: what it ensures is the law.

ghost use Rattle.exi_header.specs.Laws.{CookieIsAsked, WrittenIsRead};

/// What is written of options is read again, whatever follows, where they exclude nothing: the options where they are
/// told, else those that are handed in, and a body that begins behind all that was written.
pub fn written_is_read()
    ensures { WrittenIsRead }
{}

/// What is written begins with the cookie exactly where that is asked for.
pub fn cookie_is_asked()
    ensures { CookieIsAsked }
{}
