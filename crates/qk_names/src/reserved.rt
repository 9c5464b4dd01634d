//! Words that no declaration may take.
ghost use Rattle.std.specs.Prelude.{◌≡◌};
ghost use Rattle.std.specs.List.{list_any};
ghost use Rattle.std.specs.Str.{bytes_eq};
ghost use Rattle.qk_names.specs.Reserved.{is_reserved as is_reserved_word, type_words, value_words, operator_words, list_words, generator_words, drawing_words};

/// Whether no declaration may take the name: the heads and atoms of the forms of types, expressions and generators, and `commands`.
pub fn is_reserved(name: &[u8]) -> bool
    ensures { result ≡ is_reserved_word name.now }
{
    is_type_word(name)
        || is_value_word(name)
        || is_operator_word(name)
        || is_list_word(name)
        || is_generator_word(name)
        || is_drawing_word(name)
}

fn is_type_word(name: &[u8]) -> bool
    ensures { result ≡ list_any (bytes_eq name.now) type_words }
{
    name == b"Int".as_slice()
        || name == b"Bool".as_slice()
        || name == b"List".as_slice()
        || name == b"Pair".as_slice()
}

fn is_value_word(name: &[u8]) -> bool
    ensures { result ≡ list_any (bytes_eq name.now) value_words }
{
    name == b"true".as_slice()
        || name == b"false".as_slice()
        || name == b"if".as_slice()
        || name == b"let".as_slice()
        || name == b"match".as_slice()
}

fn is_operator_word(name: &[u8]) -> bool
    ensures { result ≡ list_any (bytes_eq name.now) operator_words }
{
    name == b"+".as_slice()
        || name == b"-".as_slice()
        || name == b"*".as_slice()
        || name == b"div".as_slice()
        || name == b"mod".as_slice()
        || name == b"neg".as_slice()
        || name == b"=".as_slice()
        || name == b"<".as_slice()
        || name == b"<=".as_slice()
        || name == b"and".as_slice()
        || name == b"or".as_slice()
        || name == b"not".as_slice()
}

fn is_list_word(name: &[u8]) -> bool
    ensures { result ≡ list_any (bytes_eq name.now) list_words }
{
    name == b"nil".as_slice()
        || name == b"cons".as_slice()
        || name == b"append".as_slice()
        || name == b"length".as_slice()
        || name == b"pair".as_slice()
}

fn is_generator_word(name: &[u8]) -> bool
    ensures { result ≡ list_any (bytes_eq name.now) generator_words }
{
    name == b"int".as_slice()
        || name == b"bool".as_slice()
        || name == b"size".as_slice()
        || name == b"choose".as_slice()
        || name == b"list".as_slice()
        || name == b"vector".as_slice()
        || name == b"elements".as_slice()
}

fn is_drawing_word(name: &[u8]) -> bool
    ensures { result ≡ list_any (bytes_eq name.now) drawing_words }
{
    name == b"oneof".as_slice()
        || name == b"frequency".as_slice()
        || name == b"resize".as_slice()
        || name == b"bind".as_slice()
        || name == b"pure".as_slice()
        || name == b"commands".as_slice()
}
