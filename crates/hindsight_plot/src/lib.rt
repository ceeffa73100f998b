// The plot of the sums of absolute gaps by setting, in a lent buffer.
#![tactic(auto)]

ghost use Rattle.composing.specs.Text.{Put};
ghost use Rattle.hindsight_cells.specs.Cells.{Shown};
ghost use Rattle.hindsight_plot.specs.Sums.{sums_plot};

use hindsight_cells::SETTINGS_TABLE;
use hindsight_grid::grid_values;
use plot::{Series, put_plot};
use rules::{MOST_HINDSIGHT, MOST_SETTINGS};

// The plot.
pub fn put_sums_plot(
    out: &mut [u8],
    at: usize,
    html: bool,
    list: &[i64; MOST_HINDSIGHT],
    settings: &[u64; MOST_SETTINGS],
    k: usize,
    n: usize,
) -> usize
    requires { Shown list.now settings.now k n 0 }
    ensures { Put out.old out.new at result (sums_plot html list.now settings.now k n) }
{
    if html {
        let values = grid_values(list, settings, k, n, 0, SETTINGS_TABLE);
        let series = Series {
            start: 1,
            stride: 2,
            bars: 1,
            split: n,
            slots: n,
        };
        put_plot(
            out,
            at,
            b"Sum of absolute gaps by setting\nA bar for each setting. The figures are in the table of settings.\n\n\n\n",
            1,
            0,
            1,
            &values,
            series,
        )
    } else {
        at
    }
}
