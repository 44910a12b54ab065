// The C forms of the calls for one page of the plan, and for the pages from a given one on.
ghost use Rattle.std.specs.Prelude.{◌≡◌, ◌∷◌, []};
ghost use Rattle.file_blocks.specs.Parse.{parse};
ghost use Rattle.plan_groups.specs.Limit.{part_limit};
ghost use Rattle.call_pages.specs.Calls.{page_call, page_numbers, pages_call, pages_numbers};
ghost use Rattle.call_pages.specs.Claims.{PageClaims};

use plan_groups::PART_LIMIT;

// The bytes of page `page`. The answer is 0, or the number of the refusal. Each line of every page
// of that file has its width, no field is cut, and the pages hold each block once, in emission
// order.
#[unsafe(no_mangle)]
pub extern "C" fn recomp_page(
    file: &[u8],
    page: u64,
    work: &mut [u32],
    text: &mut [u8],
    at: &mut u64,
    length: &mut u64,
) -> u32
    ensures answer { record {
      numbers = result ∷ at.new ∷ length.new ∷ [];
      work = work.new;
      results = text.new ∷ [];
    }
        ≡ page_numbers
        (page_call part_limit page (parse file.now) work.old
        text.old) }
    ensures claims { PageClaims part_limit file.now }
{
    call_pages::page_numbers(file, PART_LIMIT, page, work, text, at, length)
}

// The texts of the pages from `first` on, as many whole ones as fit, one after another; how many
// they are, and their bytes in all. The answer is 0, or the number of the refusal. The same holds
// of every page of that file as above.
#[unsafe(no_mangle)]
pub extern "C" fn recomp_pages(
    file: &[u8],
    first: u64,
    work: &mut [u32],
    text: &mut [u8],
    at: &mut u64,
    count: &mut u64,
    length: &mut u64,
) -> u32
    ensures answer { record {
      numbers = result ∷ at.new ∷ count.new ∷ length.new ∷ [];
      work = work.new;
      results = text.new ∷ [];
    }
        ≡ pages_numbers
        (pages_call part_limit first (parse file.now) work.old
        text.old) }
    ensures claims { PageClaims part_limit file.now }
{
    call_pages::pages_numbers(file, PART_LIMIT, first, work, text, at, count, length)
}
