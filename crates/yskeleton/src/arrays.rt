//! Arrays of numbers in C, each of the smallest type that holds its numbers.

use yfiles::output::Output;

/// How many numbers a line has.
pub const IN_A_LINE: usize = 16;

/// The smallest type of C that holds a number, and all from 0 to it.
pub fn type_of(greatest: usize) -> &'static str {
    if greatest < 1 << 8 {
        "unsigned char"
    } else if greatest < 1 << 16 {
        "unsigned short"
    } else {
        "int"
    }
}

/// Writes an array of numbers up to a greatest. An empty one has a 0, since C has no empty arrays.
pub fn put_array(out: &mut Output, name: &str, numbers: &[usize], greatest: usize) {
    out.put("static const ");
    out.put(type_of(greatest));
    out.put(" ");
    out.put(name);
    out.put("[] = {");
    for (index, number) in numbers.iter().enumerate() {
        out.put(if index % IN_A_LINE == 0 { "\n  " } else { " " });
        out.number(*number);
        out.put(",");
    }
    out.put(if numbers.is_empty() {
        "\n  0,\n};\n"
    } else {
        "\n};\n"
    });
}
