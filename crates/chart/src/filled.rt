ghost use Rattle.chart.specs.Chart.{Filled};

use crate::chart::Chart;
use grammar::grammar::Grammar;

// A chart whose numbers are all exact.
#[derive(Drop)]
pub(crate) struct FilledChart<'a, 'c, G: Grammar> {
    pub(crate) chart: Chart<'a, 'c, G>,
    ghost exact: { ∥ Filled chart ∥₁ },
}
