// Lines of text.
ghost use Rattle.std.specs.Prelude.{◌≡◌, ◌+◌, ◌≤◌, ◌++◌, length};
ghost use Rattle.txr.specs.Listing.{field_of, line_of, refused_line};

use crate::page::Page;

impl Page {
    // A number and a space.
    #[tactic(auto, unfolding(crate::specs::Listing::field_of))]
    fn field(&mut self, n: u32)
        requires { length self.old + length (field_of n) ≤ 512 }
        ensures { self.new ≡ self.old ++ field_of n }
    {
        self.decimal(n);
        self.text(b" ");
    }

    // A level's number, width, height and first texel.
    #[tactic(auto, unfolding(crate::specs::Listing::line_of))]
    pub fn line(&mut self, level: u32, width: u32, height: u32, texel: u32)
        requires { length self.old + length (line_of level width height texel) ≤ 512 }
        ensures { self.new ≡ self.old ++ line_of level width height texel }
    {
        self.field(level);
        self.field(width);
        self.field(height);
        self.hex(texel);
        self.text(b"\n");
    }

    // A page that says `refused N`.
    #[tactic(auto, using(crate::proofs::Listings::places_ten, crate::proofs::Spelling::length_decimal), unfolding(crate::specs::Listing::refused_line))]
    pub fn refused(n: u32) -> Page
        ensures { result ≡ refused_line n }
    {
        let mut page = Page::new();
        page.text(b"refused ");
        page.decimal(n);
        page.text(b"\n");
        page
    }
}
