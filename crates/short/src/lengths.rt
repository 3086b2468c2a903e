ghost use Rattle.std.specs.Prelude.{◌≡◌, length as size};
ghost use Rattle.kernel.specs.Bins.{image as image_of};
ghost use Rattle.tables.specs.declared.scale.Scale.TheVariants.{Standard};
ghost use Rattle.tables.specs.Entries.{tables_of};

use crate::inputs::Inputs;
use crate::product::product;
use crate::turn::{divided, turned};

// The algorithm of each length: the count of its products, and the bins. cos[0] is the scale. Counted are the products that `product`
// makes; beside them there is only scaling, doubling and exact division. Each asks for its own length: a length in the type would need
// a second struct, with the same fact, for the direct kernel, whose length is known at run time only.
impl Inputs<'_> {
    // Length 3, by two products.
    pub(crate) fn three(&self) -> (usize, [i64; 3])
        requires { size self.now.x.now ≡ 3 }
        ensures { result ≡ (2, image_of (tables_of Standard 3) self.now.x.now) }
    {
        let Inputs { cos, sin, x } = *self;
        let scale = cos[0];
        let sum = x[1] + x[2];
        let all = scale * (x[0] + sum);
        let (made, part) = product(0, cos[1] - scale, sum);
        let (made, last) = product(made, sin[1], x[1] - x[2]);
        (made, [all, all + part, last])
    }

    // Length 4, by no product.
    pub(crate) fn four(&self) -> (usize, [i64; 4])
        requires { size self.now.x.now ≡ 4 }
        ensures { result ≡ (0, image_of (tables_of Standard 4) self.now.x.now) }
    {
        let Inputs { cos, sin, x } = *self;
        let scale = cos[0];
        let (even, gap) = (x[0] + x[2], x[0] - x[2]);
        let (odd, side) = (x[1] + x[3], x[1] - x[3]);
        let bins = [
            scale * (even + odd),
            scale * gap,
            scale * (even - odd),
            scale * side,
        ];
        (0, bins)
    }

    // Length 5, by five products.
    pub(crate) fn five(&self) -> (usize, [i64; 5])
        requires { size self.now.x.now ≡ 5 }
        ensures { result ≡ (5, image_of (tables_of Standard 5) self.now.x.now) }
    {
        let Inputs { cos, sin, x } = *self;
        let scale = cos[0];
        let (t1, t4) = (x[1] + x[4], x[1] - x[4]);
        let (t2, t3) = (x[2] + x[3], x[2] - x[3]);
        let sum = t1 + t2;
        let all = scale * (x[0] + sum);
        let double = 2 * all;
        let (made, both) = product(0, cos[1] + cos[2] - 2 * scale, sum);
        let (made, apart) = product(made, cos[1] - cos[2], t1 - t2);
        let (made, turn) = product(made, sin[2], t3 + t4);
        let (made, low) = product(made, sin[1] + sin[2], t3);
        let (made, high) = product(made, sin[1] - sin[2], t4);
        let first = divided::<2>(double + both + apart);
        let second = divided::<2>(double + both - apart);
        (made, [all, first, second, turn - low, turn + high])
    }

    // Length 6, by four products.
    pub(crate) fn six(&self) -> (usize, [i64; 6])
        requires { size self.now.x.now ≡ 6 }
        ensures { result ≡ (4, image_of (tables_of Standard 6) self.now.x.now) }
    {
        let Inputs { cos, sin, x } = *self;
        let scale = cos[0];
        let step = cos[2] - scale;
        let (u0, w0) = (x[0] + x[3], x[0] - x[3]);
        let (u1, w1) = (x[1] + x[4], x[4] - x[1]);
        let (u2, w2) = (x[2] + x[5], x[2] - x[5]);
        let even = u1 + u2;
        let odd = w1 + w2;
        let (made, near) = product(0, step, odd);
        let (made, far) = product(made, step, even);
        let (made, low) = product(made, sin[1], u1 - u2);
        let (made, high) = product(made, sin[1], w2 - w1);
        let all = scale * (u0 + even);
        let middle = scale * (w0 + odd);
        (made, [all, middle + near, all + far, middle, low, high])
    }

    // Length 7, by eight products.
    pub(crate) fn seven(&self) -> (usize, [i64; 7])
        requires { size self.now.x.now ≡ 7 }
        ensures { result ≡ (8, image_of (tables_of Standard 7) self.now.x.now) }
    {
        let Inputs { cos, sin, x } = *self;
        let scale = cos[0];
        let (t1, t6) = (x[1] + x[6], x[1] - x[6]);
        let (t2, t5) = (x[2] + x[5], x[2] - x[5]);
        let (t3, t4) = (x[3] + x[4], x[4] - x[3]);
        let all = scale * (x[0] + t1 + t2 + t3);
        let steps = [cos[1] - scale, cos[2] - scale, cos[3] - scale];
        let (made, even) = turned(0, steps, [t1, t2, t3]);
        let (made, odd) = turned(made, [sin[1], sin[2], sin[4]], [t6, t5, t4]);
        let bins = [
            all,
            all + even[0],
            all + even[1],
            all + even[2],
            -odd[2],
            odd[1],
            odd[0],
        ];
        (made, bins)
    }

    // Length 8, by two products.
    pub(crate) fn eight(&self) -> (usize, [i64; 8])
        requires { size self.now.x.now ≡ 8 }
        ensures { result ≡ (2, image_of (tables_of Standard 8) self.now.x.now) }
    {
        let Inputs { cos, sin, x } = *self;
        let scale = cos[0];
        let (even, gap) = (x[0] + x[4], x[0] - x[4]);
        let (t1, d1) = (x[1] + x[7], x[1] - x[7]);
        let (t2, d2) = (x[2] + x[6], x[2] - x[6]);
        let (t3, d3) = (x[3] + x[5], x[3] - x[5]);
        let base = scale * gap;
        let side = scale * d2;
        let (made, cross) = product(0, cos[1], t1 - t3);
        let (made, turn) = product(made, sin[1], d1 + d3);
        let bins = [
            scale * (even + t2 + (t1 + t3)),
            base + cross,
            scale * (even - t2),
            base - cross,
            scale * (even + t2 - (t1 + t3)),
            turn - side,
            scale * (d1 - d3),
            turn + side,
        ];
        (made, bins)
    }

    // Length 9, by ten products.
    pub(crate) fn nine(&self) -> (usize, [i64; 9])
        requires { size self.now.x.now ≡ 9 }
        ensures { result ≡ (10, image_of (tables_of Standard 9) self.now.x.now) }
    {
        let Inputs { cos, sin, x } = *self;
        let scale = cos[0];
        let (t1, t8) = (x[1] + x[8], x[1] - x[8]);
        let (t2, t7) = (x[2] + x[7], x[7] - x[2]);
        let (t3, t6) = (x[3] + x[6], x[3] - x[6]);
        let (t4, t5) = (x[4] + x[5], x[4] - x[5]);
        let thirds = x[0] + t3;
        let rest = t1 + t2 + t4;
        let (made, even) = turned(0, [cos[1], cos[2], cos[4]], [t1, t2, t4]);
        let (made, odd) = turned(made, [sin[1], sin[7], sin[4]], [t7, t5, t8]);
        let (made, side) = product(made, sin[3], t6);
        let (made, sixth) = product(made, sin[3], t7 + t5 + t8);
        let base = divided::<2>(scale * (2 * x[0] - t3));
        let third = divided::<2>(scale * (2 * thirds - rest));
        let bins = [
            scale * (thirds + rest),
            base + even[0],
            base + even[1],
            third,
            base + even[2],
            side + odd[0],
            sixth,
            -(side + odd[2]),
            side + odd[1],
        ];
        (made, bins)
    }
}
