// Messages that end just before, at and just behind the end of a block.
use crate::show::line;
use std::io;
use std::io::Write;

// How many bytes a message has, and its published digest.
const LENGTHS: [(usize, &str); 15] = [
    (55, "8ae2d46729cfe68ff927af5eec9c7d1b66d65ac2"),
    (56, "636e2ec698dac903498e648bd2f3af641d3c88cb"),
    (63, "6d942da0c4392b123528f2905c713a3ce28364bd"),
    (64, "c6138d514ffa2135bfce0ed0b8fac65669917ec7"),
    (65, "69bd728ad6e13cd76ff19751fde427b00e395746"),
    (119, "41c89d06001bab4ab78736b44efe7ce18ce6ae08"),
    (120, "d3dbd653bd8597b7475321b60a36891278e6a04a"),
    (121, "3723f8ab857804f89f80970e9fc88cf8f890adc2"),
    (122, "d031c9fb7af0a461241e539e10db62ed28f7033b"),
    (123, "e0b550438e794b65d89b9ee5c8f836ae737decf0"),
    (124, "fb3998281c31d1a8eea2ea737affd0b4d6ab6ac2"),
    (125, "7a914d8b86a534581aa71ec61912ba3f5b478698"),
    (126, "a271f71547442dea7b2edf65cd5fbd5c751710aa"),
    (127, "89d7312a903f65cd2b3e34a975e55dbea9033353"),
    (128, "e6434bc401f98603d7eda504790c98c67385d535"),
];

pub fn lengths<W: Write>(out: &mut W) -> io::Result<()> {
    let all = message();
    for (n, published) in LENGTHS {
        if let Some(message) = all.get(..n) {
            line(
                format_args!("sha1-len-{n}"),
                published,
                &digest::sha1(message),
                out,
            )?;
        }
    }
    Ok(())
}

// Byte i is i modulo 251.
fn message() -> [u8; 128] {
    std::array::from_fn(|i| (i % 251) as u8)
}
