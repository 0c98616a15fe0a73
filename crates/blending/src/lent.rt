// What a call is lent of a unit: the shares of its net, and the numbers of its block.

#[derive(Clone, Copy)]
pub struct Lent<'a> {
    pub net: &'a [u32],
    pub corrections: &'a [i16],
    pub uncertainties: &'a [u16],
}
